//! The labels of a listing, found by their names.
ghost use Rattle.std.specs.Prelude.{◌≡◌, ◌≢◌, ◌∷◌, ◌++◌, [], ℕ, List, true, false, OnOk, IfOk, IfErr};
ghost use Rattle.lexical.specs.Label.{labels_of, statement_of};
ghost use Rattle.isa.specs.Labels.{address_of as address_of_name, ending_of, names_of, AreHeld};
ghost use Rattle.isa.specs.Listing.{stands_in, is_double, labels_at};
ghost use Rattle.isa.specs.Spots.{double_spot};

use super::fault::{FaultKind, LineFault};
use super::spot::Spot;
use lexical::{next_label, trim};
use std::collections::BTreeMap;

/// The address of each label, by its name. The number before a name decides most comparisons without a look at the name,
/// and the name decides where numbers are equal.
pub type Labels<'a> = BTreeMap<(u64, &'a [u8]), u32>;

// The last eight bytes of a name, or all of a shorter one, as a number: labels that are numbered one after the other
// stand side by side.
#[tactic(auto, unfolding(crate::specs::Labels::ending_of))]
fn ending_of(name: &[u8]) -> u64
    ensures { result ≡ ending_of name.now }
{
    let ending = &name[name.len().saturating_sub(8)..];
    let mut number = 0u64;
    for b in ending {
        number = number << 8 | u64::from(*b);
    }
    number
}

/// The address of a label, if there is one with this name.
pub fn address_of<'a>(labels: &Labels<'a>, name: &'a [u8]) -> Option<u32>
    ensures { result ≡ address_of_name labels.now name.now }
{
    labels.get(&(ending_of(name), name)).copied()
}

// Adds a label, unless another one has its name.
fn add_label<'a>(labels: &mut Labels<'a>, name: &'a [u8], address: u32) -> Result<(), FaultKind>
    ensures ok { OnOk result ((held : List (List ℕ × ℕ)) → AreHeld labels.old held
        → (stands_in (names_of held) name.now ≡ false)
        × AreHeld labels.new (held ++ (name.now, address) ∷ [])) }
    ensures double { IfErr result (λ e. e ≢ FaultKind.Memory → (e ≡ FaultKind.DoubleLabel)
        × ((held : List (List ℕ × ℕ)) → AreHeld labels.old held
        → stands_in (names_of held) name.now ≡ true)) }
{
    match labels.insert((ending_of(name), name), address)? {
        None => Ok(()),
        Some(_) => Err(FaultKind::DoubleLabel),
    }
}

/// Adds the labels at the front of a line, and gives its statement.
pub fn add_labels<'a>(
    labels: &mut Labels<'a>,
    code: &'a [u8],
    address: u32,
) -> Result<&'a [u8], LineFault>
    ensures ok { IfOk result (λ text. text.now ≡ statement_of code.entry.now) }
    ensures added { OnOk result ((held : List (List ℕ × ℕ)) → AreHeld labels.old held
        → (is_double (names_of held) (labels_of code.entry.now) ≡ false)
        × AreHeld labels.new (held ++ labels_at address (labels_of code.entry.now))) }
    ensures double { IfErr result (λ e. e.kind ≢ FaultKind.Memory
        → (e.kind ≡ FaultKind.DoubleLabel)
        × ((held : List (List ℕ × ℕ)) → AreHeld labels.old held
        → (is_double (names_of held) (labels_of code.entry.now) ≡ true)
        × (e.at ≡ double_spot 0 (names_of held) (labels_of code.entry.now)))) }
{
    let mut n = 0;
    let mut rest = code;
    while let Some((name, after)) = next_label(rest) {
        if let Err(kind) = add_label(labels, name, address) {
            let at = Spot::Label(n);
            return Err(LineFault { kind, at });
        }
        rest = after;
        n += 1;
    }
    Ok(trim(rest))
}
