ghost use Rattle.std.specs.Prelude.{◌≡◌, ◌↔◌, ◌++◌, ◌∷◌, ℕ, List, [], IsTrue, IsSome, IsNone, Contains, OnOk, OnErr, false, Some, true};
ghost use Rattle.std.specs.Str.{bytes_eq};
ghost use Rattle.std.specs.BTreeMap.{get_by_text};
ghost use Rattle.host_memory.specs.Listed.{refused_under, closing_refused_under};

use std::alloc::{AllocError, Global};
use std::collections::BTreeMap;

/// What fails under one name.
#[derive(Drop)]
pub struct Refusals {
    pub calls: Vec<u32>,
    pub closing: bool,
}

/// Whether the call of this number is listed as refused.
pub fn is_refused(refused: &[u32], number: u64) -> bool
    ensures { IsTrue result ↔ Contains refused.now number }
{
    refused.iter().any(|call| u64::from(*call) == number)
}

/// The numbers of the calls that fail under a name.
pub fn refused_calls<'a>(refusals: &'a BTreeMap<String, Refusals>, name: &str) -> &'a [u32]
    ensures { result.now ≡ refused_under refusals.now name.now }
{
    match refusals.get(name) {
        Some(refused) => &refused.calls,
        None => &[],
    }
}

/// Whether the closing fails under a name.
pub fn refuses_closing(refusals: &BTreeMap<String, Refusals>, name: &str) -> bool
    ensures { result ≡ closing_refused_under refusals.now name.now }
{
    match refusals.get(name) {
        Some(refused) => refused.closing,
        None => false,
    }
}

// Gives a name an entry that refuses nothing, where it has none.
fn have_entry(
    alloc: Global,
    refusals: &mut BTreeMap<String, Refusals>,
    name: &str,
) -> Result<(), AllocError>
    ensures there { OnOk result (IsSome (get_by_text refusals.new name.now)) }
    ensures calls { (other : List ℕ) → refused_under refusals.new other ≡ refused_under refusals.old other }
    ensures closings { (other : List ℕ) → closing_refused_under refusals.new other ≡ closing_refused_under refusals.old other }
{
    match refusals.get(name) {
        Some(_) => Ok(()),
        None => add_entry(alloc, refusals, name),
    }
}

// Gives a name that has none an entry that refuses nothing.
fn add_entry(
    alloc: Global,
    refusals: &mut BTreeMap<String, Refusals>,
    name: &str,
) -> Result<(), AllocError>
    requires { IsNone (get_by_text refusals.old name.now) }
    ensures there { OnOk result (IsSome (get_by_text refusals.new name.now)) }
    ensures calls { (other : List ℕ) → refused_under refusals.new other ≡ refused_under refusals.old other }
    ensures closings { (other : List ℕ) → closing_refused_under refusals.new other ≡ closing_refused_under refusals.old other }
{
    let key = String::from_str(alloc, name)?;
    let none = Refusals {
        calls: Vec::new(alloc),
        closing: false,
    };
    refusals.insert(key, none)?;
    Ok(())
}

/// Adds a call to those that fail under a name.
pub fn refuse_call(
    alloc: Global,
    refusals: &mut BTreeMap<String, Refusals>,
    name: &str,
    call: u32,
) -> Result<(), AllocError>
    ensures ok { OnOk result (refused_under refusals.new name.now ≡ refused_under refusals.old name.now ++ call ∷ []) }
    ensures err { OnErr result ((other : List ℕ) → refused_under refusals.new other ≡ refused_under refusals.old other) }
    ensures others { (other : List ℕ) → bytes_eq name.now other ≡ false → refused_under refusals.new other ≡ refused_under refusals.old other }
    ensures closings { (other : List ℕ) → closing_refused_under refusals.new other ≡ closing_refused_under refusals.old other }
{
    have_entry(alloc, refusals, name)?;
    if let Some(refused) = refusals.get_mut(name) {
        refused.calls.push(call)?;
    }
    Ok(())
}

/// Makes the closing fail under a name.
pub fn refuse_closing(
    alloc: Global,
    refusals: &mut BTreeMap<String, Refusals>,
    name: &str,
) -> Result<(), AllocError>
    ensures ok { OnOk result (closing_refused_under refusals.new name.now ≡ true) }
    ensures err { OnErr result ((other : List ℕ) → closing_refused_under refusals.new other ≡ closing_refused_under refusals.old other) }
    ensures others { (other : List ℕ) → bytes_eq name.now other ≡ false → closing_refused_under refusals.new other ≡ closing_refused_under refusals.old other }
    ensures calls { (other : List ℕ) → refused_under refusals.new other ≡ refused_under refusals.old other }
{
    have_entry(alloc, refusals, name)?;
    if let Some(refused) = refusals.get_mut(name) {
        refused.closing = true;
    }
    Ok(())
}
