// "Our own format, all numbers big-endian: four bytes counting all that follows them; one version byte, 1; then entries to the
// end." No slice has 2^63 bytes or more, so neither a place in a list nor the place after an entry comes near the largest number.
ghost use Rattle.std.specs.Prelude.{◌≡◌, ◌+◌, ◌-◌, ◌^◌, ◌<◌};
ghost use Rattle.varint.specs.Answers.{option_of};
ghost use Rattle.operators.specs.Operators.{domain, two, four, headed, after, domain_of, lowest, highest, well_formed, entries_at, entry_of, sound, allows};

use crate::canonical;
use varint::{between, byte_at, same_bytes};

// A number of two bytes. An entry may claim more bytes than the list has: those past its end are 0.
#[tactic(auto, unfolding(crate::specs::Operators::two))]
fn two(list: &[u8], pos: usize) -> usize
    requires { pos + 1 < 2 ^ 64 }
    ensures { (result ≡ two list.now pos) × (result < 65_536) }
{
    (256 * byte_at(list, pos) + byte_at(list, pos + 1)) as usize
}

#[tactic(auto, unfolding(crate::specs::Operators::four))]
fn four(list: &[u8], pos: usize) -> usize
    requires { pos + 3 < 2 ^ 64 }
    ensures { (result ≡ four list.now pos) × (result < 2 ^ 32) }
{
    65_536 * two(list, pos) + two(list, pos + 2)
}

fn is_headed(list: &[u8]) -> bool
    ensures { result ≡ headed list.now }
{
    if list.len() < 5 {
        return false;
    }
    let count = four(list, 0);
    if count + 4 != list.len() {
        return false;
    }
    byte_at(list, 4) == 1
}

// "An entry is a two-byte length of the rest of it, then domain bytes, lowest version (four bytes), highest version (four
// bytes)." A rest too short for the versions has no domain bytes.
fn domain_size(list: &[u8], entry: usize) -> usize
    requires { entry < 2 ^ 63 }
    ensures { (result ≡ two list.now entry - 8) × (result < 65_536) }
{
    let rest = two(list, entry);
    if rest < 8 {
        return 0;
    }
    rest - 8
}

fn domain_of(list: &[u8], entry: usize) -> &[u8]
    requires { entry < 2 ^ 63 }
    ensures { result.now ≡ domain_of list.now entry }
{
    let start = entry + 2;
    canonical(between(list, start, start + domain_size(list, entry)))
}

fn lowest(list: &[u8], entry: usize) -> u64
    requires { entry < 2 ^ 63 }
    ensures { result ≡ lowest list.now entry }
{
    four(list, entry + 2 + domain_size(list, entry)) as u64
}

fn highest(list: &[u8], entry: usize) -> u64
    requires { entry < 2 ^ 63 }
    ensures { result ≡ highest list.now entry }
{
    four(list, entry + 6 + domain_size(list, entry)) as u64
}

// The place after an entry. It lies further on, so that a walk over the entries ends.
#[tactic(auto, unfolding(crate::specs::Operators::after))]
fn after(list: &[u8], entry: usize) -> usize
    requires { entry < 2 ^ 63 }
    ensures { (result ≡ after list.now entry) × (entry < result) }
{
    entry + 2 + two(list, entry)
}

// Does the entry end inside the list, and are its versions in order? "Lowest is at least 1 and at most highest."
fn is_well_formed(list: &[u8], entry: usize) -> bool
    requires { entry < 2 ^ 63 }
    ensures { result ≡ well_formed list.now entry }
{
    if two(list, entry) < 8 {
        return false;
    }
    if list.len() < after(list, entry) {
        return false;
    }
    let low = lowest(list, entry);
    if low < 1 {
        return false;
    }
    low <= highest(list, entry)
}

// The first entry from `from` on that has the domain, whose name is the canonical one.
fn entry_of(list: &[u8], from: usize, d: &[u8]) -> Option<usize>
    ensures { option_of result ≡ entry_of list.now d.now (entries_at list.now from) }
{
    let mut at = from;
    // A `while`: each entry says where the next one begins.
    while at < list.len() {
        if same_bytes(d, domain_of(list, at)) {
            return Some(at);
        }
        at = after(list, at);
    }
    None
}

// Is the list sound? "No domain stands twice": a second one is met by looking for each entry's domain in those after it.
pub fn is_sound(list: &[u8]) -> bool
    ensures { result ≡ sound list.now }
{
    if !is_headed(list) {
        return false;
    }
    let mut at = 5;
    // A `while`: each entry says where the next one begins.
    while at < list.len() {
        if !is_well_formed(list, at) {
            return false;
        }
        let next = after(list, at);
        if entry_of(list, next, domain_of(list, at)).is_some() {
            return false;
        }
        at = next;
    }
    true
}

// Does the list have the domain, at this version? It need not be sound.
pub fn allows(list: &[u8], d: &[u8], version: u64) -> bool
    ensures { result ≡ allows list.now (domain d.now) version }
{
    let Some(entry) = entry_of(list, 5, canonical(d)) else {
        return false;
    };
    if version < lowest(list, entry) {
        return false;
    }
    version <= highest(list, entry)
}
