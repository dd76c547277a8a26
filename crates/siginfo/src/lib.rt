// A record of a buffer: 32 bytes, little-endian, read and written by value.
#![tactic(auto)]

ghost use Rattle.std.specs.Prelude.{◌≡◌, ◌+◌, ◌*◌, ◌≤◌, length, take, drop};
ghost use Rattle.std.proofs.lemmas.List.Edits.{sets};
ghost use Rattle.limits.specs.Limits.{record_bytes};
ghost use Rattle.lists.specs.Rows.{row};
ghost use Rattle.siginfo.specs.Bytes.{u32_bytes, u64_bytes, le, encode, siginfo_of, bytes_of};

use limits::{
    RECORD_BYTES, RECORD_CODE, RECORD_PROCESS, RECORD_SENDER, RECORD_SIGNAL, RECORD_THREAD,
    RECORD_UID, RECORD_VALUE,
};
use types::Siginfo;

// ---- numbers, the lowest byte first

// N bytes of a row, from a place on.
fn part<const N: usize>(b: &[u8], at: usize) -> [u8; N]
    requires { at + N ≤ length b.now }
    ensures { result ≡ take N (drop at b.now) }
{
    let mut bytes = [0; N];
    bytes.copy_from_slice(&b[at..at + N]);
    bytes
}

fn put<const N: usize>(b: &mut [u8], at: usize, bytes: [u8; N])
    requires { at + N ≤ length b.old }
    ensures { b.new ≡ sets b.old at bytes.entry }
{
    b[at..at + N].copy_from_slice(&bytes);
}

pub fn read_u32(b: &[u8], at: usize) -> u32
    requires { at + u32_bytes ≤ length b.now }
    ensures { result ≡ le (take u32_bytes (drop at b.now)) }
{
    u32::from_le_bytes(part(b, at))
}

pub fn read_u64(b: &[u8], at: usize) -> u64
    requires { at + u64_bytes ≤ length b.now }
    ensures { result ≡ le (take u64_bytes (drop at b.now)) }
{
    u64::from_le_bytes(part(b, at))
}

pub fn write_u32(b: &mut [u8], at: usize, x: u32)
    requires { at + u32_bytes ≤ length b.old }
    ensures { b.new ≡ sets b.old at (encode u32_bytes x) }
{
    put(b, at, u32::to_le_bytes(x));
}

pub fn write_u64(b: &mut [u8], at: usize, x: u64)
    requires { at + u64_bytes ≤ length b.old }
    ensures { b.new ≡ sets b.old at (encode u64_bytes x) }
{
    put(b, at, u64::to_le_bytes(x));
}

// ---- a record

// The record in a slot, whatever its bytes are.
pub fn read(b: &[u8], slot: usize) -> Siginfo
    requires { slot * record_bytes + record_bytes ≤ length b.now }
    ensures { result ≡ siginfo_of (row record_bytes b.now slot) }
{
    let at = slot * RECORD_BYTES;
    Siginfo {
        process: read_u32(b, at + RECORD_PROCESS),
        thread: read_u32(b, at + RECORD_THREAD),
        signal: read_u32(b, at + RECORD_SIGNAL),
        code: read_u32(b, at + RECORD_CODE),
        sender: read_u32(b, at + RECORD_SENDER),
        uid: read_u32(b, at + RECORD_UID),
        value: read_u64(b, at + RECORD_VALUE),
    }
}

// The record into a slot; no other byte changes.
pub fn write(b: &mut [u8], slot: usize, r: Siginfo)
    requires { slot * record_bytes + record_bytes ≤ length b.old }
    ensures { b.new ≡ sets b.old (slot * record_bytes) (bytes_of r) }
{
    let at = slot * RECORD_BYTES;
    write_u32(b, at + RECORD_PROCESS, r.process);
    write_u32(b, at + RECORD_THREAD, r.thread);
    write_u32(b, at + RECORD_SIGNAL, r.signal);
    write_u32(b, at + RECORD_CODE, r.code);
    write_u32(b, at + RECORD_SENDER, r.sender);
    write_u32(b, at + RECORD_UID, r.uid);
    write_u64(b, at + RECORD_VALUE, r.value);
}
