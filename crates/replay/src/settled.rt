//! What the oldest tenants have left, once none of them is in flight.
ghost use Rattle.std.specs.Prelude.{◌≡◌, ◌<◌, ◌≤◌, ◌+◌, ◌-◌, ◌^◌, IfOk, IfSome, [], length};
ghost use Rattle.replay.specs.Settlement.{Advances, IsSettled, ends_by};

use crate::front::Front;
use crate::tenant::Store;
use inorder::data::store;
use instructions::{Half, Program};
use std::alloc::{AllocError, Global};

/// What the oldest tenants have left, none of which is in flight or a stop.
#[derive(Drop)]
pub struct Settled {
    /// How many they are.
    pub upto: usize,
    /// How many of them are on the path.
    pub path: usize,
    /// Where the path goes on after them.
    pub front: Front,
    /// The last of them that writes each register.
    pub writers: [Option<usize>; 34],
    /// The registers that they have written.
    pub registers: [u32; 34],
    /// How many instructions have ended with them: the halves of a multiplication or division are one.
    pub count: usize,
    /// Memory with their stores.
    pub memory: Vec<u8>,
}

// An instruction ends where no second half comes after it.
fn ended(next: Half) -> usize
    ensures value { result ≡ ends_by next }
    ensures small { result ≤ 1 }
{
    match next {
        Half::Low => 1,
        Half::High => 0,
    }
}

impl Settled {
    /// Before the first tenant.
    pub(crate) fn new(alloc: Global, program: &Program) -> Result<Settled, AllocError>
        ensures { IfOk result (IsSettled program.now []) }
    {
        let memory = Vec::from_slice(alloc, program.bytes())?;
        Ok(Settled {
            upto: 0,
            path: 0,
            front: Front {
                pc: Program::START,
                half: Half::Low,
            },
            writers: [None; 34],
            registers: [0; 34],
            count: 0,
            memory,
        })
    }

    /// With one more that was squashed.
    pub(crate) fn skip(&mut self)
        requires { self.old.upto < 2 ^ 64 - 1 }
        ensures { self.new ≡ record self.old { upto = self.old.upto + 1 } }
    {
        self.upto += 1;
    }

    /// With one more that has retired: where the path goes on after it, the register that it writes, its value, and what
    /// it stores.
    pub(crate) fn advance(
        &mut self,
        front: Front,
        register: usize,
        value: u32,
        stored: Option<Store>,
    )
        requires upto { self.old.upto < 2 ^ 64 - 1 }
        requires path { self.old.path ≤ self.old.upto }
        requires count { self.old.count ≤ self.old.upto }
        requires register { register < 34 }
        requires inside { IfSome stored (λ s. s.at + s.width ≤ length self.old.memory.items) }
        ensures { Advances self.old front register value stored self.new }
    {
        if let Some(write) = stored {
            let content = write.content.unwrap_or(0);
            store(
                self.memory.as_mut_slice(),
                write.at as usize,
                write.width as usize,
                content,
            );
        }
        self.writers[register] = Some(self.upto);
        self.registers[register] = value;
        self.count += ended(front.half);
        self.front = front;
        self.path += 1;
        self.upto += 1;
    }
}
