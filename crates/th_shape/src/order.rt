//! An order of classes in which each stands after the class that it inherits.
ghost use Rattle.std.specs.Prelude.{◌≡◌, ◌<◌, ◌^◌, ◌++◌, ℕ, length, get_or, reverse, false, true, IfOk, OnOk};
ghost use Rattle.th_shape.specs.Order.{Ending, Inner, IsOrder};
ghost use Rattle.th_shape.specs.Walk.{Climbed, Placing};

use std::alloc::{AllocError, Global};

/// Marks a place and those to which it leads, up to one that is marked, and lists them.
fn climb(
    alloc: Global,
    ups: &[Option<u32>],
    marked: &mut [bool],
    from: u32,
) -> Result<Vec<u32>, AllocError>
    requires many { length marked.old ≡ length ups.now }
    requires within { from < length ups.now }
    requires inner { Inner ups.now }
    ensures { IfOk result (λ path. Climbed ups.now marked.old marked.new from path.items) }
{
    let mut path = Vec::new(alloc);
    let mut next = Some(from);
    while let Some(place) = next {
        let seen = marked[place as usize];
        if seen {
            return Ok(path);
        }
        marked[place as usize] = true;
        path.push(place)?;
        next = ups[place as usize];
    }
    Ok(path)
}

/// Adds the places of a path, the last one first.
fn emit(order: &mut Vec<u32>, mut path: Vec<u32>) -> Result<(), AllocError>
    ensures { OnOk result (order.new.items ≡ order.old.items ++ reverse path.items) }
{
    path.reverse();
    order.extend_from_slice(&path)?;
    Ok(())
}

/// Adds a place, and before it those to which it leads, unless they are there.
fn place(
    alloc: Global,
    ups: &[Option<u32>],
    marked: &mut [bool],
    order: &mut Vec<u32>,
    from: u32,
) -> Result<(), AllocError>
    requires within { from < length ups.now }
    requires inner { Inner ups.now }
    requires ending { Ending ups.now }
    requires placing { Placing ups.now marked.old order.old.items }
    ensures placing { OnOk result (Placing ups.now marked.new order.new.items) }
    ensures here { OnOk result (get_or marked.new from false ≡ true) }
    ensures kept { OnOk result ((x : ℕ) → get_or marked.old x false ≡ true → get_or marked.new x false ≡ true) }
{
    let path = climb(alloc, ups, marked, from)?;
    emit(order, path)?;
    Ok(())
}

/// All places, each once, each after that to which it leads.
pub fn order_of(alloc: Global, ups: &[Option<u32>]) -> Result<Vec<u32>, AllocError>
    requires few { length ups.now < 2 ^ 32 }
    requires inner { Inner ups.now }
    requires ending { Ending ups.now }
    ensures { IfOk result (λ order. IsOrder ups.now order.items) }
{
    let mut flags = vec![in alloc; false; ups.len()]?;
    let marked: &mut [bool] = &mut flags;
    let mut order = Vec::new(alloc);
    for k in 0..ups.len() {
        place(alloc, ups, marked, &mut order, k as u32)?;
    }
    Ok(order)
}
