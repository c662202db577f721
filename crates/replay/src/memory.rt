//! Memory as the stores before a tenant leave it.
ghost use Rattle.std.specs.Prelude.{◌≡◌, ◌<◌, ◌≤◌, ◌+◌, ◌-◌, ◌^◌, IfSome, length, slice_index, take};
ghost use Rattle.inorder.specs.Memory.{byte_after as byte_after_by, lacks_address, stored as stored_by};
ghost use Rattle.replay.specs.Bytes.{byte_by, byte_more};
ghost use Rattle.lsq.specs.Bytes.{byte_of as byte_of_by, joined as joined_by, little_endian_if_there};
ghost use Rattle.replay.specs.Shown.{shown, store_of, tenant_of};

use crate::tenant::{Fate, Standing, Store, Tenant};
use crate::unit::Unit;
use instructions::Kind;

// A byte of a number, by its place.
fn byte_of(number: u32, place: usize) -> u8
    requires { place < 4 }
    ensures { result ≡ byte_of_by place number }
{
    let (second, third, fourth) = (number / 256, number / 256 / 256, number / 256 / 256 / 256);
    match place {
        0 => (number % 256) as u8,
        1 => (second % 256) as u8,
        2 => (third % 256) as u8,
        _ => (fourth % 256) as u8,
    }
}

// The byte at `x` after a store.
fn byte_after(store: Option<Store>, x: usize, before: Option<u8>) -> Option<u8>
    requires { IfSome store (λ s. s.width ≤ 4) }
    ensures { result ≡ byte_after_by (store_of store) x before }
{
    let Some(store) = store else {
        return before;
    };
    let at = store.at as usize;
    if x < at || at + store.width as usize <= x {
        return before;
    }
    match store.content {
        Some(content) => Some(byte_of(content, x - at)),
        None => None,
    }
}

// A byte before a number, where both are there.
fn joined(low: Option<u8>, high: Option<u32>) -> Option<u32>
    requires { IfSome high (λ n. n < 16777216) }
    ensures { result ≡ joined_by low high }
{
    match (low, high) {
        (Some(low), Some(high)) => Some(u32::from(low) + 256 * high),
        _ => None,
    }
}

impl<'a> Unit<'a> {
    /// What a tenant stores, once its address is known.
    pub(crate) fn stored(&self, tenant: &Tenant) -> Option<Store>
        ensures value { store_of result ≡ stored_by self.now.program.now (tenant_of tenant.now) }
        ensures small { IfSome result (λ s. s.width ≤ 4) }
    {
        if matches!(tenant.standing, Standing::Squashed) {
            return None;
        }
        let width = self.instr(tenant).op().width();
        match (self.kind(tenant), tenant.fate) {
            (Kind::Stores, Fate::Addr(at)) => Some(Store {
                at,
                width,
                content: tenant.second.value,
            }),
            _ => None,
        }
    }

    // The byte at `x` as the settled tenants leave it.
    fn settled_byte(&self, x: usize) -> u8
        ensures { result ≡ slice_index self.now.settled.memory.items x }
    {
        match self.settled.memory.as_slice().get(x) {
            Some(byte) => *byte,
            None => 0,
        }
    }

    // A store in flight without an address.
    fn lacks_address(&self, tenant: &Tenant) -> bool
        ensures { result ≡ lacks_address self.now.program.now (tenant_of tenant.now) }
    {
        match (tenant.standing, self.kind(tenant), tenant.fate) {
            (Standing::Live, Kind::Stores, Fate::Addr(_)) => false,
            (Standing::Live, Kind::Stores, _) => true,
            _ => false,
        }
    }

    // The byte at `x` after one tenant more; none where it is to be sure, and the tenant can still change it.
    fn byte_with(&self, tenant: &Tenant, x: usize, before: Option<u8>, sure: bool) -> Option<u8>
        ensures { result ≡ byte_more sure self.now.program.now (tenant_of tenant.now) x before }
    {
        if sure && self.lacks_address(tenant) {
            None
        } else {
            byte_after(self.stored(tenant), x, before)
        }
    }

    // The byte at `x` after the first tenants; none where it is to be sure, and one of them can still change it.
    fn byte_before(&self, who: usize, x: usize, sure: bool) -> Option<u8>
        requires who { who ≤ length self.now.tenants.items }
        requires settled { self.now.settled.upto ≤ who }
        ensures { result ≡ byte_by sure self.now.program.now
            (shown (take who self.now.tenants.items)) x }
    {
        let mut byte = Some(self.settled_byte(x));
        for q in self.settled.upto..who {
            byte = self.byte_with(self.there(q), x, byte, sure);
        }
        byte
    }

    // The number in a byte from an address on, after the first tenants.
    fn raw_1(&self, who: usize, at: usize, sure: bool) -> Option<u32>
        requires who { who ≤ length self.now.tenants.items }
        requires settled { self.now.settled.upto ≤ who }
        requires at { at < 2 ^ 40 }
        ensures value { result ≡ little_endian_if_there
            (byte_by sure self.now.program.now (shown (take who self.now.tenants.items))) at 1 }
        ensures small { IfSome result (λ n. n < 256) }
    {
        joined(self.byte_before(who, at, sure), Some(0))
    }

    // The number in two bytes from an address on, after the first tenants.
    fn raw_2(&self, who: usize, at: usize, sure: bool) -> Option<u32>
        requires who { who ≤ length self.now.tenants.items }
        requires settled { self.now.settled.upto ≤ who }
        requires at { at < 2 ^ 40 - 1 }
        ensures value { result ≡ little_endian_if_there
            (byte_by sure self.now.program.now (shown (take who self.now.tenants.items))) at 2 }
        ensures small { IfSome result (λ n. n < 65536) }
    {
        joined(
            self.byte_before(who, at, sure),
            self.raw_1(who, at + 1, sure),
        )
    }

    // The number in three bytes from an address on, after the first tenants.
    fn raw_3(&self, who: usize, at: usize, sure: bool) -> Option<u32>
        requires who { who ≤ length self.now.tenants.items }
        requires settled { self.now.settled.upto ≤ who }
        requires at { at < 2 ^ 40 - 2 }
        ensures value { result ≡ little_endian_if_there
            (byte_by sure self.now.program.now (shown (take who self.now.tenants.items))) at 3 }
        ensures small { IfSome result (λ n. n < 16777216) }
    {
        joined(
            self.byte_before(who, at, sure),
            self.raw_2(who, at + 1, sure),
        )
    }

    // The number in four bytes from an address on, after the first tenants.
    fn raw_4(&self, who: usize, at: usize, sure: bool) -> Option<u32>
        requires who { who ≤ length self.now.tenants.items }
        requires settled { self.now.settled.upto ≤ who }
        requires at { at < 2 ^ 40 - 3 }
        ensures value { result ≡ little_endian_if_there
            (byte_by sure self.now.program.now (shown (take who self.now.tenants.items))) at 4 }
        ensures small { IfSome result (λ n. n < 4294967296) }
    {
        joined(
            self.byte_before(who, at, sure),
            self.raw_3(who, at + 1, sure),
        )
    }

    /// The number in `width` bytes from an address on, after the first tenants.
    pub(crate) fn raw_before(&self, who: usize, at: usize, width: usize, sure: bool) -> Option<u32>
        requires who { who ≤ length self.now.tenants.items }
        requires settled { self.now.settled.upto ≤ who }
        requires at { at < 2 ^ 32 }
        requires width { width ≤ 4 }
        ensures { result ≡ little_endian_if_there
            (byte_by sure self.now.program.now (shown (take who self.now.tenants.items))) at width }
    {
        match width {
            0 => Some(0),
            1 => self.raw_1(who, at, sure),
            2 => self.raw_2(who, at, sure),
            3 => self.raw_3(who, at, sure),
            _ => self.raw_4(who, at, sure),
        }
    }
}
