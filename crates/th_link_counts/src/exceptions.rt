//! The exceptions that a program's interfaces declare.
ghost use Rattle.std.specs.Prelude.{◌≡◌, ◌-◌, ◌^◌, IfOk, length, map, min, sum_by};
ghost use Rattle.th_meaning.specs.View.{interface_of, program_of};
ghost use Rattle.th_link_counts.specs.Kept.{exception_count};

use crate::kept::interfaces_once;
use std::alloc::{AllocError, Global};
use th_meaning::{CoreInterface, CoreModule};

/// The exceptions of interfaces; the number stays at the greatest of 64 bits.
fn exceptions_in(interfaces: &[&CoreInterface]) -> u64
    ensures { result ≡ min (sum_by (λ i. length i.exceptions) (map (λ i. interface_of i.now) interfaces.now)) (2 ^ 64 - 1) }
{
    let mut sum: u64 = 0;
    for interface in interfaces {
        sum = sum.saturating_add(interface.exceptions.len() as u64);
    }
    sum
}

/// How many exceptions the interfaces of modules declare, each interface once; the number stays at the greatest of 64 bits.
pub fn exception_count(alloc: Global, modules: &[CoreModule]) -> Result<u64, AllocError>
    ensures { IfOk result (λ n. n ≡ min (exception_count (program_of modules.now)) (2 ^ 64 - 1)) }
{
    let interfaces = interfaces_once(alloc, modules)?;
    Ok(exceptions_in(&interfaces))
}
