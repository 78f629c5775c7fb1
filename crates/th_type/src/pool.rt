//! Lists of types that are kept once each: equal lists have one number, and lists share their parts. So a type whose size doubles
//! with its height takes no more room than it has different parts.
ghost use Rattle.std.specs.Prelude.{◌≡◌, ◌≤◌, ◌<◌, ◌∷◌, ◌++◌, [], List, IfOk, OnOk, OnErr, MatchOption, IfSome, None, slice_get};
ghost use Rattle.std.specs.Map.{lookup};
ghost use Rattle.th_type.specs.Args.{args_items};
ghost use Rattle.th_type.specs.Types.{TypeExprs, ty_of, tys_of, list_of, arg_at, subst_ty, subst_tys, ty_height, tys_height, same_ty, same_tys};
ghost use Rattle.th_type.specs.Pool.{same_cell, tys_at, shape_ty, shapes_tys, cell_tys, IsKept, IsNumbered, ShapeFits, AllFit, CellFits, Grows};

use crate::ty::{Args, Ty, TyList};
use indexmap::IndexMap;
use std::alloc::{AllocError, Global};
use std::marker::Model;

/// The greatest height of a type in a list that is kept: that of the arguments of a supertype.
const MOST_HEIGHT: u32 = 599;

/// A type, whose parts are lists of a pool by their numbers: of an array the list of the elements' type alone, of a declared
/// type the list of its arguments.
#[derive(Clone, Copy, Debug, PartialEq, Eq, Hash)]
pub(crate) enum Shape {
    Int,
    Bool,
    Text,
    Array(u32),
    Named(u32, u32),
    Param(u32),
}

/// A list of types: empty, or its first type and the number of the list of the others.
#[derive(Clone, Copy, Debug, PartialEq, Eq, Hash)]
pub(crate) enum Cell {
    Empty,
    More(Shape, u32),
}

/// The number of a list, and the greatest height of its types.
#[derive(Clone, Copy, Debug, PartialEq, Eq)]
pub(crate) struct Kept {
    pub(crate) number: u32,
    pub(crate) height: u32,
}

/// Lists of types, each once. A contract sees the list of the lists, of which each has its place as number.
#[derive(Drop)]
pub(crate) struct Pool {
    cells: IndexMap<Cell, Kept>,
}

impl Model for Pool {
    ghost use Rattle.std.specs.Prelude.{List};
    ghost use Rattle.std.specs.Coded.{coded_list};
    ghost use Rattle.th_type.specs.Types.{TypeExprs};
    ghost use Rattle.th_type.specs.Codes.{coded_types};
    ghost use Rattle.th_type.specs.Pool.{pooled, PoolRight};

    ghost Value = { List TypeExprs };

    ghost coded = { coded_list coded_types };

    ghost view = { λ a. pooled a.cells.entries };

    ghost invariant = { λ a. PoolRight a.cells.entries };
}

/// What is kept of a cell.
fn find(cells: &IndexMap<Cell, Kept>, cell: Cell) -> Option<Kept>
    ensures { result ≡ lookup (same_cell cell) cells.now.entries }
{
    cells.get(&cell).copied()
}

/// Puts a cell that is not there last.
fn put(cells: &mut IndexMap<Cell, Kept>, cell: Cell, kept: Kept) -> Result<(), AllocError>
    requires { lookup (same_cell cell) cells.old.entries ≡ None }
    ensures entries { OnOk result (cells.new.entries ≡ cells.old.entries ++ (cell, kept) ∷ []) }
    ensures err { OnErr result (cells.new.entries ≡ cells.old.entries) }
{
    match cells.insert(cell, kept) {
        Ok(_) => Ok(()),
        Err(_) => Err(AllocError),
    }
}

/// The shape at place `k`; None exactly where there is none.
fn shape_at(shapes: &[Shape], k: usize) -> Option<Shape>
    ensures { result ≡ slice_get shapes.now k }
{
    shapes.get(k).copied()
}

/// The shape in place of the parameter at a place; a parameter without one stays.
fn given(args: &[Shape], place: u32) -> Shape
    ensures fits { (ts : List TypeExprs) → AllFit ts args.now → ShapeFits ts result }
    ensures is { (ts : List TypeExprs) → shape_ty ts result ≡ arg_at (list_of (shapes_tys ts args.now)) place place }
{
    match shape_at(args, place as usize) {
        Some(shape) => shape,
        None => Shape::Param(place),
    }
}

impl Pool {
    /// No lists.
    pub(crate) fn new(alloc: Global) -> Pool
        ensures { result ≡ [] }
    {
        Pool {
            cells: IndexMap::new(alloc),
        }
    }

    /// Whether the lists of two numbers are equal.
    pub(crate) fn is_same(&self, a: u32, b: u32) -> bool
        requires a { IsKept self.now a }
        requires b { IsKept self.now b }
        ensures { result ≡ same_tys (tys_at self.now a) (tys_at self.now b) }
    {
        let _ = &self.cells;
        a == b
    }

    /// The cell of the list with the number; that of the empty list where there is none.
    fn cell(&self, list: u32) -> Cell
        ensures is { cell_tys self.now result ≡ tys_at self.now list }
        ensures fits { CellFits self.now result }
    {
        match self.cells.get_index(list as usize) {
            Some((cell, _)) => *cell,
            None => Cell::Empty,
        }
    }

    /// The greatest height of the types in the list with the number; 0 where there is none.
    fn list_height(&self, list: u32) -> u32
        ensures is { result ≡ tys_height (tys_at self.now list) }
        ensures low { result ≤ 599 }
    {
        match self.cells.get_index(list as usize) {
            Some((_, kept)) => kept.height,
            None => 0,
        }
    }

    /// The height of a type.
    fn shape_height(&self, shape: Shape) -> u32
        requires { ShapeFits self.now shape }
        ensures is { result ≡ ty_height (shape_ty self.now shape) }
        ensures low { result ≤ 600 }
    {
        match shape {
            Shape::Array(list) | Shape::Named(_, list) => self.list_height(list) + 1,
            _ => 1,
        }
    }

    /// The greatest height of the types in the list of a cell.
    fn cell_height(&self, cell: Cell) -> u32
        requires { CellFits self.now cell }
        ensures { result ≡ tys_height (cell_tys self.now cell) }
    {
        match cell {
            Cell::Empty => 0,
            Cell::More(first, rest) => self.shape_height(first).max(self.list_height(rest)),
        }
    }

    /// The number of the list of a cell; None exactly where a type in it has a height above 599. More than 2^32 - 1 lists are want
    /// of memory.
    fn number(&mut self, cell: Cell) -> Result<Option<u32>, AllocError>
        requires { CellFits self.old cell }
        ensures made { IfOk result (λ r. MatchOption r (599 < tys_height (cell_tys self.old cell)) (λ k. IsNumbered self.new k (cell_tys self.old cell))) }
        ensures grown { OnOk result (Grows self.old self.new) }
    {
        match find(&self.cells, cell) {
            Some(kept) => return Ok(Some(kept.number)),
            None => {}
        }
        let height = self.cell_height(cell);
        if height > MOST_HEIGHT {
            return Ok(None);
        }
        let count = self.cells.len();
        if count >= 0xffff_ffff {
            return Err(AllocError);
        }
        let number = count as u32;
        put(&mut self.cells, cell, Kept { number, height })?;
        Ok(Some(number))
    }

    /// The number of the list of these types; None exactly where one of them has a height above 599.
    fn number_of(&mut self, shapes: &[Shape]) -> Result<Option<u32>, AllocError>
        requires { AllFit self.old shapes.now }
        ensures made { IfOk result (λ r. MatchOption r (599 < tys_height (shapes_tys self.old shapes.now)) (λ k. IsNumbered self.new k (shapes_tys self.old shapes.now))) }
        ensures grown { OnOk result (Grows self.old self.new) }
    {
        let Some(mut list) = self.number(Cell::Empty)? else {
            return Ok(None);
        };
        let mut left = shapes.len();
        while left > 0 {
            left -= 1;
            match self.number(Cell::More(shapes[left], list))? {
                Some(longer) => list = longer,
                None => return Ok(None),
            }
        }
        Ok(Some(list))
    }

    /// The types in the list with the number.
    pub(crate) fn shapes(&self, alloc: Global, list: u32) -> Result<Vec<Shape>, AllocError>
        ensures fit { IfOk result (λ shapes. AllFit self.now shapes.items) }
        ensures are { IfOk result (λ shapes. shapes_tys self.now shapes.items ≡ tys_at self.now list) }
    {
        let mut shapes = Vec::new(alloc);
        let mut rest = list;
        loop {
            match self.cell(rest) {
                Cell::Empty => return Ok(shapes),
                Cell::More(first, next) => {
                    shapes.push(first)?;
                    rest = next;
                }
            }
        }
    }

    /// The type with the argument at each place in place of the parameter there; None exactly where it is too high.
    #[cycle(putting)]
    fn shape_with(
        &mut self,
        alloc: Global,
        ty: &Ty,
        args: &[Shape],
    ) -> Result<Option<Shape>, AllocError>
        requires { AllFit self.old args.now }
        ensures high { IfOk result (λ r. MatchOption r (600 < ty_height (subst_ty (list_of (shapes_tys self.old args.now)) (ty_of ty.now))) (λ s. ShapeFits self.new s)) }
        ensures made { IfOk result (λ r. IfSome r (λ s. shape_ty self.new s ≡ subst_ty (list_of (shapes_tys self.old args.now)) (ty_of ty.now))) }
        ensures grown { OnOk result (Grows self.old self.new) }
    {
        match ty {
            Ty::Int => Ok(Some(Shape::Int)),
            Ty::Bool => Ok(Some(Shape::Bool)),
            Ty::Text => Ok(Some(Shape::Text)),
            Ty::Array(of) => {
                let Some(of) = self.shape_with(alloc, of, args)? else {
                    return Ok(None);
                };
                let Some(list) = self.number_of(&[of])? else {
                    return Ok(None);
                };
                Ok(Some(Shape::Array(list)))
            }
            Ty::Named(name, list) => {
                let Some(list) = self.list_with(alloc, list, args)? else {
                    return Ok(None);
                };
                Ok(Some(Shape::Named(*name, list)))
            }
            Ty::Param(place) => Ok(Some(given(args, *place))),
        }
    }

    /// The number of the list of the types with the argument at each place in place of the parameter there; None exactly where one
    /// of them has a height above 599.
    #[cycle(putting)]
    pub(crate) fn list_with(
        &mut self,
        alloc: Global,
        list: &TyList,
        args: &[Shape],
    ) -> Result<Option<u32>, AllocError>
        requires { AllFit self.old args.now }
        ensures made { IfOk result (λ r. MatchOption r (599 < tys_height (subst_tys (list_of (shapes_tys self.old args.now)) (tys_of list.now))) (λ k. IsNumbered self.new k (subst_tys (list_of (shapes_tys self.old args.now)) (tys_of list.now)))) }
        ensures grown { OnOk result (Grows self.old self.new) }
    {
        let mut shapes = Vec::new(alloc);
        let mut rest = list;
        while let TyList::MoreTy(first, next) = rest {
            match self.shape_with(alloc, first, args)? {
                Some(shape) => shapes.push(shape)?,
                None => return Ok(None),
            }
            rest = next;
        }
        self.number_of(&shapes)
    }

    /// Whether a type, with arguments in place of parameters, is the other.
    #[cycle(comparing)]
    fn shape_is(&self, shape: Shape, args: Args<'_>, other: &Ty) -> bool
        requires { ShapeFits self.now shape }
        ensures { result ≡ same_ty (subst_ty (args_items args.entry) (shape_ty self.now shape)) (ty_of other.now) }
    {
        match (shape, other) {
            (Shape::Int, Ty::Int) => true,
            (Shape::Bool, Ty::Bool) => true,
            (Shape::Text, Ty::Text) => true,
            (Shape::Array(list), Ty::Array(other)) => match self.cell(list) {
                Cell::More(of, _) => self.shape_is(of, args, other),
                Cell::Empty => unreachable!(),
            },
            (Shape::Named(name, list), Ty::Named(other, others)) => {
                name == *other && self.list_is(list, args, others)
            }
            (Shape::Param(place), _) => args.is_at(place, other),
            _ => false,
        }
    }

    /// Whether the types of the list with the number, with arguments in place of parameters, are the others in order.
    #[cycle(comparing)]
    pub(crate) fn list_is(&self, list: u32, args: Args<'_>, others: &TyList) -> bool
        ensures { result ≡ same_tys (subst_tys (args_items args.entry) (tys_at self.now list)) (tys_of others.now) }
    {
        let mut left = list;
        let mut right = others;
        loop {
            match (self.cell(left), right) {
                (Cell::Empty, TyList::NoTy) => return true,
                (Cell::More(first, next), TyList::MoreTy(other, rest)) => {
                    if !self.shape_is(first, args, other) {
                        return false;
                    }
                    left = next;
                    right = rest;
                }
                _ => return false,
            }
        }
    }
}
