//! Reading types.
ghost use Rattle.std.specs.Prelude.{◌≡◌, ◌<◌, ◌≤◌, ◌+◌, max, IfOk, MatchResult};
ghost use Rattle.th_tree.specs.Trees.{no_type, more_types, type_height, types_height};
ghost use Rattle.th_tree.specs.View.{type_of, types_of, named_of, formal_of};
ghost use Rattle.th_syntax.specs.declared.step.Stop.TheVariants.{Memory};
ghost use Rattle.th_syntax.specs.Parse.{read_type, read_named, read_formal, type_args, named_type_of, array_type_of, type_of as read_type_of};
ghost use Rattle.th_syntax.specs.Gives.{Gives};
ghost use Rattle.th_syntax.specs.Lists.{type_list};

use crate::step::{Reader, Step, Stop, at_symbol, at_word, name, reference, symbol, word};
use th_tree::{Formal, Lexeme, NamedTree, Reserved, Sym, TypeList, TypeTree};

/// A type and its height.
#[derive(Drop)]
pub struct ReadType {
    pub tree: TypeTree,
    pub height: u32,
}

/// Types and the greatest of their heights.
#[derive(Drop)]
pub struct ReadTypes {
    pub trees: TypeList,
    pub height: u32,
}

/// A named type and the greatest height of its arguments.
#[derive(Drop)]
pub struct ReadNamed {
    pub tree: NamedTree,
    pub height: u32,
}

/// The greater number.
pub fn larger(a: u32, b: u32) -> u32
    ensures { result ≡ max a b }
{
    if a < b { b } else { a }
}

/// The types with one more before them.
fn more_first<'a>(reader: Reader, tree: TypeTree, trees: TypeList) -> Result<TypeList, Stop<'a>>
    ensures { MatchResult result (λ l. types_of l ≡ more_types (type_of tree) (types_of trees)) (λ e. e ≡ Memory) }
{
    match Box::new(reader.alloc, trees) {
        Ok(rest) => Ok(TypeList::MoreType(tree, rest)),
        Err(_) => Err(Stop::Memory),
    }
}

impl Reader {
    /// A type up to the height `room`.
    #[cycle(types)]
    pub fn type_tree<'a>(self, room: u32, tokens: &'a [Lexeme]) -> Step<'a, ReadType>
        requires { room < 1000 }
        ensures gives { Gives (λ x. type_of x.0.tree) (λ x. x.1.now) result (read_type room self.most tokens.now) }
        ensures height { IfOk result (λ x. x.0.height ≡ type_height (type_of x.0.tree)) }
        ensures low { IfOk result (λ x. x.0.height ≤ room) }
    {
        if room == 0 {
            return Err(Stop::Wrong(tokens));
        }
        self.type_within(room - 1, tokens)
    }

    /// A type up to the height `r + 1`.
    #[cycle(types)]
    fn type_within<'a>(self, r: u32, tokens: &'a [Lexeme]) -> Step<'a, ReadType>
        requires { r < 999 }
        ensures gives { Gives (λ x. type_of x.0.tree) (λ x. x.1.now) result (read_type_of r (read_type r) self.most tokens.now) }
        ensures height { IfOk result (λ x. x.0.height ≡ type_height (type_of x.0.tree)) }
        ensures low { IfOk result (λ x. x.0.height ≤ r + 1) }
    {
        if at_word(tokens, Reserved::KeyInt) {
            let (at, rest) = word(tokens, Reserved::KeyInt)?;
            return Ok((
                ReadType {
                    tree: TypeTree::Int(at),
                    height: 1,
                },
                rest,
            ));
        }
        if at_word(tokens, Reserved::KeyBool) {
            let (at, rest) = word(tokens, Reserved::KeyBool)?;
            return Ok((
                ReadType {
                    tree: TypeTree::Bool(at),
                    height: 1,
                },
                rest,
            ));
        }
        if at_word(tokens, Reserved::KeyString) {
            let (at, rest) = word(tokens, Reserved::KeyString)?;
            return Ok((
                ReadType {
                    tree: TypeTree::Text(at),
                    height: 1,
                },
                rest,
            ));
        }
        if at_word(tokens, Reserved::KeyArray) {
            if r == 0 {
                return Err(Stop::Wrong(tokens));
            }
            return self.array_type(r, tokens);
        }
        let (named, rest) = self.named_within(r, tokens)?;
        let NamedTree { item, args } = named.tree;
        Ok((
            ReadType {
                tree: TypeTree::Named(item, args),
                height: named.height + 1,
            },
            rest,
        ))
    }

    /// `array` and what follows.
    #[cycle(types)]
    fn array_type<'a>(self, r: u32, tokens: &'a [Lexeme]) -> Step<'a, ReadType>
        requires { r < 999 }
        ensures gives { Gives (λ x. type_of x.0.tree) (λ x. x.1.now) result (array_type_of r (read_type r) self.most tokens.now) }
        ensures height { IfOk result (λ x. x.0.height ≡ type_height (type_of x.0.tree)) }
        ensures low { IfOk result (λ x. x.0.height ≤ r + 1) }
    {
        let (at, rest) = word(tokens, Reserved::KeyArray)?;
        let (_, rest) = symbol(rest, Sym::OpenSquare)?;
        let (of, rest) = self.type_tree(r, rest)?;
        let (_, rest) = symbol(rest, Sym::CloseSquare)?;
        let Ok(tree) = Box::new(self.alloc, of.tree) else {
            return Err(Stop::Memory);
        };
        Ok((
            ReadType {
                tree: TypeTree::Array(at, tree),
                height: of.height + 1,
            },
            rest,
        ))
    }

    /// A named type up to the height `room`.
    pub fn named<'a>(self, room: u32, tokens: &'a [Lexeme]) -> Step<'a, ReadNamed>
        requires { room < 1000 }
        ensures gives { Gives (λ x. named_of x.0.tree) (λ x. x.1.now) result (read_named room self.most tokens.now) }
        ensures height { IfOk result (λ x. x.0.height ≡ types_height (named_of x.0.tree).args) }
        ensures low { IfOk result (λ x. x.0.height < room) }
    {
        if room == 0 {
            return Err(Stop::Wrong(tokens));
        }
        self.named_within(room - 1, tokens)
    }

    /// A named type up to the height `r + 1`.
    #[cycle(types)]
    fn named_within<'a>(self, r: u32, tokens: &'a [Lexeme]) -> Step<'a, ReadNamed>
        requires { r < 999 }
        ensures gives { Gives (λ x. named_of x.0.tree) (λ x. x.1.now) result (named_type_of r (read_type r) self.most tokens.now) }
        ensures height { IfOk result (λ x. x.0.height ≡ types_height (named_of x.0.tree).args) }
        ensures low { IfOk result (λ x. x.0.height ≤ r) }
    {
        let (item, rest) = reference(tokens)?;
        let (args, rest) = self.type_args(r, rest)?;
        let Ok(trees) = Box::new(self.alloc, args.trees) else {
            return Err(Stop::Memory);
        };
        Ok((
            ReadNamed {
                tree: NamedTree { item, args: trees },
                height: args.height,
            },
            rest,
        ))
    }

    /// Types in brackets, or nothing.
    #[cycle(types)]
    fn type_args<'a>(self, r: u32, tokens: &'a [Lexeme]) -> Step<'a, ReadTypes>
        requires { r < 999 }
        ensures gives { Gives (λ x. types_of x.0.trees) (λ x. x.1.now) result (type_args r (read_type r) self.most tokens.now) }
        ensures height { IfOk result (λ x. x.0.height ≡ types_height (types_of x.0.trees)) }
        ensures low { IfOk result (λ x. x.0.height ≤ r) }
    {
        if !at_symbol(tokens, Sym::OpenSquare) {
            return Ok((
                ReadTypes {
                    trees: TypeList::NoType,
                    height: 0,
                },
                tokens,
            ));
        }
        if r == 0 {
            return Err(Stop::Wrong(tokens));
        }
        let (_, rest) = symbol(tokens, Sym::OpenSquare)?;
        let (args, rest) = self.types(r, rest)?;
        let (_, rest) = symbol(rest, Sym::CloseSquare)?;
        Ok((args, rest))
    }

    /// Types up to the height `r`, with commas between them.
    #[cycle(types)]
    pub fn types<'a>(self, r: u32, tokens: &'a [Lexeme]) -> Step<'a, ReadTypes>
        requires { r < 999 }
        ensures gives { Gives (λ x. types_of x.0.trees) (λ x. x.1.now) result (type_list r self.most tokens.now) }
        ensures height { IfOk result (λ x. x.0.height ≡ types_height (types_of x.0.trees)) }
        ensures low { IfOk result (λ x. x.0.height ≤ r) }
    {
        let mut back = TypeList::NoType;
        let mut height = 0;
        let mut rest = tokens;
        for _ in 0..self.most {
            let (one, after) = self.type_tree(r, rest)?;
            height = larger(height, one.height);
            back = more_first(self, one.tree, back)?;
            if !at_symbol(after, Sym::Comma) {
                return Ok((
                    ReadTypes {
                        trees: back.turned(TypeList::NoType),
                        height,
                    },
                    after,
                ));
            }
            let (_, next) = symbol(after, Sym::Comma)?;
            rest = next;
        }
        let (one, after) = self.type_tree(r, rest)?;
        let height = larger(height, one.height);
        let back = more_first(self, one.tree, back)?;
        Ok((
            ReadTypes {
                trees: back.turned(TypeList::NoType),
                height,
            },
            after,
        ))
    }

    /// A name, `:` and a type.
    pub fn formal<'a>(self, r: u32, tokens: &'a [Lexeme]) -> Step<'a, Formal>
        requires { r < 1000 }
        ensures { Gives (λ x. formal_of x.0) (λ x. x.1.now) result (read_formal r self.most tokens.now) }
    {
        let (name, rest) = name(tokens)?;
        let (_, rest) = symbol(rest, Sym::Colon)?;
        let (of, rest) = self.type_tree(r, rest)?;
        Ok((Formal { name, of: of.tree }, rest))
    }
}
