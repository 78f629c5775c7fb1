//! The types that the interfaces of a module declare, by name, and the homes of their methods.
ghost use Rattle.std.specs.Prelude.{◌≡◌, ◌+◌, ◌++◌, length, map, option_map, option_copied, IfOk, OnOk, is_some, Some};
ghost use Rattle.th_meaning.specs.View.{types_of, type_of, type_decl_of, method_of, module_of};
ghost use Rattle.th_meaning.specs.Typing.{first_of};
ghost use Rattle.th_meaning.specs.Weights.{type_list, argument_at};
ghost use Rattle.th_lowering.specs.Homes.{MethodShape, types_known, decl_named, shape_of, written, shape_in, shape_within, method_shape, same_name, own_over, own_among, is_own, first_with, above_for, home};
ghost use Rattle.th_lowering.specs.Stubs.{bare_type, shape_or_none};
ghost use Rattle.th_homes.specs.Heads.{head_of, head_name, head_through, shape_head, shape_through};
ghost use Rattle.th_homes.specs.View.{known_of, head_view, shape_view};

use std::alloc::{AllocError, Global};
use th_lowering::declared_name;
use th_meaning::{CoreMethodSig, CoreModule, CoreType, CoreTypeDecl, CoreTypeList};
use th_tree::Name;

/// What a type begins with: a declared type, by its name; a type parameter, by its place; or something else.
#[derive(Clone, Copy)]
pub(crate) enum Head<'a> {
    Named(&'a Name),
    Param(u32),
    Other,
}

/// How many formals a method has, and what the type begins with of what it gives, where it gives something.
#[derive(Clone, Copy)]
pub(crate) struct Shape<'a> {
    pub(crate) formals: usize,
    pub(crate) gives: Option<Head<'a>>,
}

/// The types that the interfaces of a module declare, in order.
#[derive(Drop)]
pub struct Types<'a> {
    /// The declarations.
    pub decls: Vec<&'a CoreTypeDecl>,
}

/// What a type begins with.
fn head_of(of: &CoreType) -> Head<'_>
    ensures { head_view result ≡ head_of (type_of of.now) }
{
    match of {
        CoreType::Named(name, _) => Head::Named(name),
        CoreType::Param(place) => Head::Param(*place),
        CoreType::Int | CoreType::Bool | CoreType::Text | CoreType::Array(_) => Head::Other,
    }
}

/// What the argument at a place begins with; where there is none, the parameter stays.
fn argument(args: &CoreTypeList, place: u32) -> Head<'_>
    ensures { head_view result ≡ head_of (argument_at (type_list (types_of args.now)) place place) }
{
    let mut left = place;
    let mut rest = args;
    while let CoreTypeList::MoreType(first, next) = rest {
        if left == 0 {
            return head_of(first);
        }
        left -= 1;
        rest = next;
    }
    Head::Param(place)
}

/// What a type begins with when arguments stand for its parameters.
fn through<'a>(head: Head<'a>, args: &'a CoreTypeList) -> Head<'a>
    ensures { head_view result ≡ head_through (type_list (types_of args.now)) (head_view head.entry) }
{
    match head {
        Head::Named(name) => Head::Named(name),
        Head::Param(place) => argument(args, place),
        Head::Other => Head::Other,
    }
}

/// The name of a declared type.
fn name_of(head: Option<Head<'_>>) -> Option<&Name>
    ensures { option_copied result ≡ head_name (option_map head_view head.entry) }
{
    match head {
        Some(Head::Named(name)) => Some(name),
        Some(Head::Param(_)) => None,
        Some(Head::Other) => None,
        None => None,
    }
}

/// Whether two names are equal, or both absent.
fn same_name(a: Option<&Name>, b: Option<&Name>) -> bool
    ensures { result ≡ same_name (option_copied a.entry) (option_copied b.entry) }
{
    match a {
        None => b.is_none(),
        Some(a) => match b {
            None => false,
            Some(b) => a.as_bytes() == b.as_bytes(),
        },
    }
}

/// The shape of a method as it is written.
fn shape_of(method: &CoreMethodSig) -> Shape<'_>
    ensures { shape_view result ≡ shape_head (shape_of (method_of method.now)) }
{
    Shape {
        formals: method.sig.formals.len(),
        gives: match &method.sig.gives {
            None => None,
            Some(of) => Some(head_of(of)),
        },
    }
}

/// A method that is written in a type.
fn written<'a>(decl: &'a CoreTypeDecl, method: &Name) -> Option<Shape<'a>>
    ensures { option_map shape_view result ≡ option_map shape_head (written (type_decl_of decl.now) method.now) }
{
    for candidate in &decl.methods {
        if candidate.name.as_bytes() == method.as_bytes() {
            return Some(shape_of(candidate));
        }
    }
    None
}

impl<'a> Shape<'a> {
    /// The shape when arguments stand for type parameters.
    fn through(self, args: &'a CoreTypeList) -> Shape<'a>
        ensures { shape_view result ≡ shape_through (type_list (types_of args.now)) (shape_view self.entry) }
    {
        Shape {
            formals: self.formals,
            gives: match self.gives {
                None => None,
                Some(head) => Some(through(head, args)),
            },
        }
    }
}

/// The shape that there may be, when arguments stand for type parameters.
fn shape_through<'a>(shape: Option<Shape<'a>>, args: &'a CoreTypeList) -> Option<Shape<'a>>
    ensures { option_map shape_view result ≡ option_map (shape_through (type_list (types_of args.now))) (option_map shape_view shape.entry) }
{
    match shape {
        None => None,
        Some(shape) => Some(shape.through(args)),
    }
}

impl<'a> Types<'a> {
    /// The types that the interfaces of a module declare.
    pub fn of(alloc: Global, checked: &'a CoreModule) -> Result<Types<'a>, AllocError>
        ensures { IfOk result (λ types. known_of types ≡ types_known (module_of checked.now)) }
    {
        let mut decls = Vec::new(alloc);
        for interface in &checked.interfaces {
            push_types(&mut decls, &interface.types)?;
        }
        Ok(Types { decls })
    }

    /// The declared type of a name.
    fn find(&self, name: &Name) -> Option<&'a CoreTypeDecl>
        ensures { option_map (λ d. type_decl_of d.now) result ≡ decl_named (known_of self.now) name.now }
    {
        for decl in &self.decls {
            if decl.name.as_bytes() == name.as_bytes() {
                return Some(*decl);
            }
        }
        None
    }

    /// A type's method.
    fn method(&self, of: &'a CoreType, method: &Name) -> Option<Shape<'a>>
        ensures { option_map shape_view result ≡ option_map shape_head (method_shape (known_of self.now) (type_of of.now) method.now) }
    {
        within(self, self.decls.len() + 1, of, method)
    }

    /// Whether a method is a declared type's own: it is written in the type, and no declared supertype has it, or one has it with
    /// another result.
    #[tactic(auto, using(crate::proofs::Lists::own_of))]
    fn is_own(&self, decl: &'a CoreTypeDecl, method: &Name) -> bool
        ensures { result ≡ is_own (known_of self.now) (type_decl_of decl.now) method.now }
    {
        match written(decl, method) {
            None => false,
            Some(own) => self.is_own_over(name_of(own.gives), &decl.supertypes, method),
        }
    }

    /// Whether none of the types has a method, or one has it with another result than one of this name.
    #[tactic(auto, using(crate::proofs::Lists::or_true, crate::proofs::Lists::shapes_some, crate::proofs::Lists::differs_of))]
    fn is_own_over(&self, own: Option<&Name>, types: &'a [CoreType], method: &Name) -> bool
        ensures { result ≡ own_over (option_copied own.entry) (map (λ t. method_shape (known_of self.now) t method.now) (map type_of types.now)) }
    {
        let mut inherited = false;
        for of in types {
            if let Some(shape) = self.method(of, method) {
                inherited = true;
                if !same_name(name_of(shape.gives), own) {
                    return true;
                }
            }
        }
        !inherited
    }

    /// The name of the first of the types that has a method.
    #[tactic(auto, using(crate::proofs::Lists::shapes_some))]
    fn first_with(&self, types: &'a [CoreType], method: &Name) -> Option<&'a Name>
        ensures { option_copied result ≡ first_with (known_of self.now) method.now (map type_of types.now) }
    {
        for of in types {
            if self.method(of, method).is_some() {
                return declared_name(of);
            }
        }
        None
    }

    /// Where a method goes on from a type to its home; None where the type is its home.
    fn above(&self, of: &Name, method: &Name) -> Option<&'a Name>
        ensures { option_copied result ≡ above_for (known_of self.now) method.now (decl_named (known_of self.now) of.now) }
    {
        let decl = self.find(of)?;
        if self.is_own(decl, method) {
            return None;
        }
        self.first_with(&decl.supertypes, method)
    }

    /// The home of a type's method.
    #[tactic(auto, using(crate::proofs::Lists::home_next))]
    pub fn home<'b>(&'b self, of: &'b Name, method: &Name) -> &'b Name
        ensures { result.now ≡ home (known_of self.now) of.now method.now }
    {
        let mut home = of;
        let mut steps = self.decls.len();
        while steps > 0 {
            match self.above(home, method) {
                None => return home,
                Some(above) => home = above,
            }
            steps -= 1;
        }
        home
    }

    /// How many formals a type's method has, and whether it gives a value.
    pub fn sizes(&self, of: &Name, method: &Name) -> (usize, bool)
        ensures formals { result.0 ≡ (shape_or_none (method_shape (known_of self.now) (bare_type of.now) method.now)).formals }
        ensures gives { result.1 ≡ is_some (shape_or_none (method_shape (known_of self.now) (bare_type of.now) method.now)).gives }
    {
        match declared(self, self.decls.len(), of, method) {
            None => (0, false),
            Some(shape) => (shape.formals, shape.gives.is_some()),
        }
    }
}

/// The method of a declared type, within so many steps up from it.
#[cycle(shapes)]
fn declared<'a>(known: &Types<'a>, steps: usize, name: &Name, method: &Name) -> Option<Shape<'a>>
    ensures { option_map shape_view result ≡ option_map shape_head (shape_in (decl_named (known_of known.now) name.now) method.now (λ t. shape_within steps (known_of known.now) t method.now)) }
{
    let decl = known.find(name)?;
    match written(decl, method) {
        Some(shape) => Some(shape),
        None => first(known, steps, &decl.supertypes, method),
    }
}

/// The method of the first of the types that has it, within so many steps up.
#[cycle(shapes)]
fn first<'a>(
    known: &Types<'a>,
    steps: usize,
    types: &'a [CoreType],
    method: &Name,
) -> Option<Shape<'a>>
    ensures { option_map shape_view result ≡ option_map shape_head (first_of (map (λ t. shape_within steps (known_of known.now) t method.now) (map type_of types.now))) }
{
    for of in types {
        if let Some(shape) = within(known, steps, of, method) {
            return Some(shape);
        }
    }
    None
}

/// A type's method, within so many steps up.
#[cycle(shapes)]
#[tactic(auto, using(crate::proofs::Lists::shape_up))]
fn within<'a>(known: &Types<'a>, steps: usize, of: &'a CoreType, method: &Name) -> Option<Shape<'a>>
    ensures { option_map shape_view result ≡ option_map shape_head (shape_within steps (known_of known.now) (type_of of.now) method.now) }
{
    if steps == 0 {
        return None;
    }
    match of {
        CoreType::Named(name, args) => {
            let shape = declared(known, steps - 1, name, method);
            shape_through(shape, args)
        }
        CoreType::Int | CoreType::Bool | CoreType::Text | CoreType::Array(_) | CoreType::Param(_) =>
            None,
    }
}

/// Appends the types that an interface declares.
fn push_types<'a>(
    decls: &mut Vec<&'a CoreTypeDecl>,
    types: &'a [CoreTypeDecl],
) -> Result<(), AllocError>
    ensures { OnOk result (map (λ d. type_decl_of d.now) decls.new.items ≡ map (λ d. type_decl_of d.now) decls.old.items ++ map type_decl_of types.now) }
{
    for of in types {
        decls.push(of)?;
    }
    Ok(())
}
