//! Where the header words of objects are seen as which types, and the slots of their tables:
//! definitions and laws, without a compiler.
#![tactic(auto)]

ghost use Rattle.std.specs.Prelude.{◌≡◌, ℕ, List, Bool, Option, IsTrue};
ghost use Rattle.th_views.specs.Bridges.{Made, Rules, Rule8, At, Reach, Arrives};
ghost use Rattle.th_views.specs.Laws.{TypeCasts, TypeSlotsApart, V1, V2, V3, V3Whole, V5, Counted};
ghost use Rattle.th_views.specs.Objects.{Sound};
ghost use Rattle.th_views.specs.Rows.{Ordered, Program};
ghost use Rattle.th_views.specs.Terms.{Term, Terms, Full, sub, result_of};
ghost use Rattle.th_views.specs.declared.TypeRow.{TypeRow};

use std::marker::Model;
use th_type::{NumberList, Ty};

/// Which declared supertype of a type comes next: the first, the second (with whether the first is
/// topped), or one after these.
#[derive(Clone, Copy)]
pub enum Turn {
    First,
    Second(bool),
    Later,
}

/// A type, and a header word at which it is seen, counted in words downward.
#[derive(Clone, Copy)]
pub struct Spot {
    pub name: u32,
    pub word: u32,
}

/// A method whose result is a declared type, and the place of that type in the list of types.
#[derive(Clone, Copy)]
pub struct Gives {
    pub method: u32,
    pub of: u32,
}

/// Methods whose results are declared types. A contract sees the list of its items.
#[derive(Drop)]
pub struct GivesList {
    list: Vec<Gives>,
}

impl Model for GivesList {
    ghost use Rattle.std.specs.Prelude.{List};
    ghost use Rattle.th_views.specs.declared.Gives.{Gives};

    ghost Value = { List Gives };

    ghost view = { λ a. a.list.items };
}

impl GivesList {
    /// The list of these items. It takes no memory.
    pub fn of(items: Vec<Gives>) -> Self
        ensures { result ≡ items.items }
    {
        GivesList { list: items }
    }

    /// The items as a slice.
    pub fn as_slice(&self) -> &[Gives]
        ensures { result.now ≡ self.now }
    {
        &self.list
    }
}

/// A declared type as the layout sees it.
#[derive(Drop)]
pub struct TypeRow {
    /// The number of its name.
    pub name: u32,
    /// The places of its declared supertypes in the list of types, in their order.
    pub supers: NumberList,
    /// Whether it is the second of each list of supertypes that names it, and of one at least.
    pub marked: bool,
    /// The numbers of its own methods, in their order.
    pub own: NumberList,
    /// The results of its methods over its own parameters, where they are declared types.
    pub gives: GivesList,
}

/// A class as the layout sees it.
#[derive(Drop)]
pub struct ClassRow {
    /// The number of its name.
    pub name: u32,
    /// The place of its type in the list of types.
    pub of: u32,
    /// The place in the list of classes of the class that it inherits.
    pub inherits: Option<u32>,
    /// Whether the type of the inherited class, with equal arguments, is its type or stands on the
    /// chain of first supertypes of its type.
    pub extends: bool,
    /// The hidden methods that it introduces.
    pub hidden: NumberList,
    /// The methods for which it has a body.
    pub bodies: NumberList,
    /// The words for its where-clauses, and its fields, without those that it inherits.
    pub wheres: u32,
    pub fields: u32,
    /// The results of its signatures that aren't hidden methods', where they are declared types.
    pub gives: GivesList,
    /// For each method, the result at which the body that the walk finds arrives, where it is a
    /// declared type: that of the first signature, from the body's class down to this one, that isn't
    /// a hidden method's.
    pub arrives: GivesList,
}

/// A class as it is written, as far as its layout needs it.
#[derive(Drop)]
pub struct ClassShape {
    /// The number of its full name.
    pub name: u32,
    /// Its type, over its own parameters.
    pub of: Ty,
    /// The class that it inherits, by its number, with arguments over its own parameters.
    pub inherits: Option<Ty>,
    /// How many fields it has, without those that it inherits.
    pub own_fields: u32,
    /// How many words its where-clauses take, without those that it inherits.
    pub where_words: u32,
    /// The methods that are neither in its type nor inherited.
    pub hidden: NumberList,
    /// The methods for which it has a body.
    pub methods: NumberList,
}

/// A slot of a table: its offset in bytes from the middle word, the method, the class whose body it
/// holds, and the distance in bytes by which a bridge lowers the result, 0 without a bridge.
#[derive(Clone, Copy)]
pub struct Slot {
    pub offset: i32,
    pub method: u32,
    pub body: u32,
    pub bridge: u32,
}

/// The laws of the headers of types, over all programs: each supertype of a type seen at a word is
/// seen at its cast distance, and no two own methods share a slot.
pub fn type_laws()
    ensures casts { (rows : List TypeRow) → Ordered rows → TypeCasts rows }
    ensures slots { (rows : List TypeRow) → Ordered rows → TypeSlotsApart rows }
{}

/// The laws of the objects of classes, over all programs.
pub fn object_laws()
    ensures v1 { (p : Program) → Sound p → V1 p }
    ensures v2 { (p : Program) → Sound p → V2 p }
    ensures v3 { (p : Program) → Sound p → V3 p }
    ensures v3_whole { (p : Program) → Sound p → V3Whole p }
    ensures v5 { (p : Program) → Sound p → V5 p }
    ensures counted { (p : Program) → Counted p }
{}

/// What the body that a class's walk finds returns conforms to the result of each type above the
/// types of the class and of those that it inherits, and its distance is that of the names.
pub fn bridge_laws()
    ensures { (less : Term → Term → Bool) → ((t : Term) → IsTrue (less t t)) → ((s t u : Term) → IsTrue (less s t) → IsTrue (less t u) → IsTrue (less s u))
        → ((a : Terms) (s t : Term) → IsTrue (less s t) → IsTrue (less (sub a s) (sub a t)))
        → (chain : List Made) (m : ℕ) (x t : Full) (b a : Terms) (q : Option Term)
        → Rules (λ s t. IsTrue (less s t)) chain m → Rule8 (λ s t. IsTrue (less s t)) m x → At chain x b → Reach x b t a → result_of t m ≡ Some q
        → Arrives less chain m t a q }
{}
