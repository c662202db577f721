//! What is committed where the oldest instruction of a flow leaves: its register holds what it has made since it has
//! completed.
ghost use Rattle.std.specs.Prelude.{◌≡◌, ◌<◌, ◌≤◌, ◌+◌, ◌-◌, ◌^◌, suc, length, drop, false, None, Some};
ghost use Rattle.inorder.specs.Loads.{is_store};
ghost use Rattle.inorder.specs.Machine.{store_bytes};
ghost use Rattle.instructions.specs.Instruction.{fixed_next, is_first_half, kind as kind_of, width as width_of};
ghost use Rattle.instructions.specs.declared.op.Kind.TheVariants.{Stores as StoreKind};
ghost use Rattle.streaming.specs.CompletedRing.{station_by, stores_behind};
ghost use Rattle.streaming.specs.Departing.{held_by, low_by, passed_by};
ghost use Rattle.one_thread.specs.Leavers.{leaver_by};
ghost use Rattle.streaming.specs.Slots.{slot_in};
ghost use Rattle.one_thread.specs.Window.{access_of};

use crate::completed_ring::Completed;
use crate::flow::Flow;
use inorder::Committed;
use instructions::{Kind, Leaver, Reg};
use one_thread::{Decoded, access, leaver_of};

// Counts an instruction that goes on at `next`.
#[inline(always)]
fn count(committed: &mut Committed, low: &mut Option<u32>, next: u32)
    requires { committed.old.count < 2 ^ 64 - 1 }
    ensures committed { committed.new ≡ record committed.old {
      pc = next;
      count = suc committed.old.count;
    } }
    ensures low { low.new ≡ None }
{
    if low.is_some() {
        *low = None;
    }
    committed.advance(Reg::ZERO, 0, next);
}

// What the oldest instruction stores is committed, and its entry leaves.
#[inline(always)]
fn store(committed: &mut Committed, flow: &mut Flow, instr: &Decoded, oldest: &Completed)
    requires { oldest.now.value + width_of instr.now.op ≤ length committed.old.memory }
    ensures committed { committed.new ≡ record committed.old {
      memory =
          store_bytes committed.old.memory oldest.now.value (width_of instr.now.op)
          oldest.now.kept;
    } }
    ensures flow { flow.new ≡ record flow.old {
      ring = record flow.old.ring { stores = drop 1 flow.old.ring.stores };
    } }
{
    flow.ring.shift_store();
    let width = instr.op().width() as usize;
    committed.store_at(oldest.value as usize, width, oldest.kept);
}

// What the oldest instruction, a first half, has made waits for LO, and what LO has held is kept.
#[cold]
#[inline(never)]
fn wait(low: &mut Option<u32>, flow: &mut Flow, oldest: &Completed)
    ensures low { low.new ≡ Some oldest.now.value }
    ensures flow { flow.new ≡ record flow.old { held = oldest.now.kept } }
{
    *low = Some(oldest.value);
    flow.held = oldest.kept;
}

// The oldest instruction, which is no store, is counted, if it is no first half.
#[inline(always)]
fn commit(
    committed: &mut Committed,
    low: &mut Option<u32>,
    flow: &mut Flow,
    instr: &Decoded,
    oldest: &Completed,
)
    requires count { committed.old.count < 2 ^ 64 - 1 }
    requires kind { is_store (kind_of instr.now.op) ≡ false }
    ensures committed { committed.new ≡ passed_by (is_first_half instr.now.op oldest.now.half)
        (station_by instr.now oldest.now) oldest.now.kept committed.old }
    ensures low { low.new ≡ low_by (is_first_half instr.now.op oldest.now.half)
        (station_by instr.now oldest.now) }
    ensures held { flow.new.held ≡ held_by (is_first_half instr.now.op oldest.now.half)
        oldest.now.kept flow.old.held }
    ensures ring { flow.new.ring ≡ record flow.old.ring {
      stores =
          stores_behind (station_by instr.now oldest.now) flow.old.ring.stores;
    } }
    ensures rest { flow.new ≡ record flow.old { ring = flow.new.ring; held = flow.new.held } }
{
    if instr.is_first_half(oldest.half) {
        wait(low, flow, oldest);
        return;
    }
    count(committed, low, oldest.next);
}

/// The oldest instruction leaves and is committed. Answers what a predictor is to be told of who has left its station.
#[inline(always)]
pub fn retire(
    committed: &mut Committed,
    low: &mut Option<u32>,
    flow: &mut Flow,
    instr: &Decoded,
    oldest: &Completed,
) -> Option<Leaver>
    requires count { committed.old.count < 2 ^ 64 - 1 }
    requires some { 0 < length flow.old.ring.completed }
    requires counted { access_of instr.now ≤ flow.old.accesses }
    requires inside { kind_of instr.now.op ≡ StoreKind →
        oldest.now.value + width_of instr.now.op ≤ length committed.old.memory }
    ensures told { let fixed = fixed_next instr.now oldest.now.half oldest.now.pc in
        result ≡ leaver_by fixed oldest.now.pc oldest.now.next }
    ensures ring { flow.new.ring ≡ record flow.old.ring {
      completed = drop 1 flow.old.ring.completed;
      stores =
          stores_behind (station_by instr.now oldest.now) flow.old.ring.stores;
      oldest = slot_in flow.old.ring.size flow.old.ring.oldest 1;
    } }
    ensures accesses { flow.new.accesses ≡ flow.old.accesses - access_of instr.now }
    ensures held { flow.new.held ≡ held_by (is_first_half instr.now.op oldest.now.half)
        oldest.now.kept flow.old.held }
    ensures rest { flow.new ≡ record flow.old {
      ring = flow.new.ring;
      accesses = flow.new.accesses;
      held = flow.new.held;
    } }
    ensures committed { committed.new ≡ passed_by (is_first_half instr.now.op oldest.now.half)
        (station_by instr.now oldest.now) oldest.now.kept committed.old }
    ensures low { low.new ≡ low_by (is_first_half instr.now.op oldest.now.half)
        (station_by instr.now oldest.now) }
{
    if let Kind::Stores = instr.kind() {
        flow.leaves(1);
        store(committed, flow, instr, oldest);
        count(committed, low, oldest.next);
        return None;
    }
    flow.leaves(access(instr));
    commit(committed, low, flow, instr, oldest);
    leaver_of(instr, oldest.half, oldest.pc, oldest.next)
}

/// The oldest instruction leaves, with its number of accesses, and is counted, where nothing waits for LO.
#[inline(always)]
pub fn retire_counted(committed: &mut Committed, flow: &mut Flow, accesses: usize, next: u32)
    requires count { committed.old.count < 2 ^ 64 - 1 }
    requires some { 0 < length flow.old.ring.completed }
    requires counted { accesses ≤ flow.old.accesses }
    ensures ring { flow.new.ring ≡ record flow.old.ring {
      completed = drop 1 flow.old.ring.completed;
      oldest = slot_in flow.old.ring.size flow.old.ring.oldest 1;
    } }
    ensures accesses { flow.new.accesses ≡ flow.old.accesses - accesses }
    ensures rest { flow.new ≡ record flow.old {
      ring = flow.new.ring;
      accesses = flow.new.accesses;
    } }
    ensures committed { committed.new ≡ record committed.old {
      pc = next;
      count = suc committed.old.count;
    } }
{
    flow.leaves(accesses);
    committed.advance(Reg::ZERO, 0, next);
}
