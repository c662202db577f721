//! The stations and the committed state.
ghost use Rattle.std.specs.Prelude.{◌≡◌, ◌<◌, ◌≤◌, ◌-◌, ◌^◌, None, IfOk};
ghost use Rattle.inorder.specs.Machine.{start};
ghost use Rattle.one_thread.specs.Changes.{ahead_of};
ghost use Rattle.one_thread.specs.StandsFor.{StandsFor, StandsForSome};
ghost use Rattle.inorder.specs.Unit.{empty_unit};

use crate::decoded::Decoded;
use crate::fetch::decode_all;
use crate::window::Window;
use crate::with_pending_low::WithPendingLow;
use inorder::Committed;
use instructions::{Config, Leaver, Memory, Program, Stop};
use std::alloc::Global;

#[derive(Drop)]
pub struct Pipeline<'a> {
    pub program: &'a Program,
    // its instructions
    pub code: Vec<Decoded>,
    pub ring: usize,
    pub queue: usize,
    pub first_tag: u32,
    pub window: Window,
    pub committed: Committed,
    // what a first half has made that has retired without its second: it waits for LO
    pub low: Option<u32>,
    // the station of the oldest live tenant
    pub oldest: usize,
    // by station, who has left it
    pub leavers: [Option<Leaver>; 32],
    pub over: Option<Stop>,
}

impl<'a> Pipeline<'a> {
    pub fn new(alloc: Global, program: &'a Program, config: &Config) -> Result<Self, Memory>
        ensures unit { IfOk result (λ b. StandsForSome b) }
        ensures start { IfOk result (λ b. b.committed ≡ start program.now) }
        ensures program { IfOk result (λ b. b.program.now ≡ program.now) }
        ensures ring { IfOk result (λ b. b.ring ≡ config.now.ring) }
        ensures queue { IfOk result (λ b. b.queue ≡ config.now.queue) }
        ensures tag { IfOk result (λ b. b.first_tag ≡ config.now.first_tag) }
        ensures fresh { IfOk result (λ b. StandsFor b empty_unit) }
    {
        let window = Window::new(alloc)?;
        let code = decode_all(alloc, program)?;
        let committed = Committed::new(alloc, program)?;
        Ok(Pipeline {
            program,
            code,
            ring: config.ring() as usize,
            queue: config.queue() as usize,
            first_tag: config.first_tag(),
            window,
            committed,
            low: None,
            oldest: 0,
            leavers: [None; 32],
            over: None,
        })
    }

    /// The state that a new tenant finds where nobody is live.
    #[inline(always)]
    pub fn ahead(&self) -> WithPendingLow<'_>
        ensures { result ≡ ahead_of self.now }
    {
        WithPendingLow {
            committed: &self.committed,
            low: &self.low,
        }
    }
}
