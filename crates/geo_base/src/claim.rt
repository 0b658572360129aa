ghost use Rattle.std.specs.Prelude.{◌≡◌, ◌^◌, ◌-◌, ◌<◌, ◌↔◌, true, false, nat_lt, Some, IfSome, IsNone};
ghost use Rattle.geo_base.specs.Claims.{beats, word_of, IsClaim};

use crate::numbers::{Csn, Epoch, RegionNo};

/// What one more commit number, and one more start, count for in a word.
const CSN_UNIT: u64 = 1 << 8;

const START_UNIT: u64 = 1 << 32;

/// How many commit numbers a word can hold, and the greatest.
const CSN_COUNT: u64 = 1 << 24;

const LAST_CSN: u32 = (1 << 24) - 1;

/// What a candidate holds a row by: it wins over another of its epoch whose start is earlier, then
/// over one with a greater commit number, then over one of a greater region.
#[derive(Clone, Copy, Debug, PartialEq, Eq)]
pub struct Claim {
    pub start: Epoch,
    pub csn: Csn,
    pub region: RegionNo,
}

/// The claim as a word, so that the greatest of several words is the winner's. No claim has a word
/// below 2^32, so 0 can mean that a row is not claimed.
#[tactic(auto, unfolding(crate::specs::Claims::word_of))]
pub fn pack_claim(claim: Claim) -> u64
    requires start { claim.start < 2 ^ 32 - 1 }
    requires csn { claim.csn < 2 ^ 24 }
    ensures { result ≡ word_of claim }
{
    let csn = LAST_CSN - claim.csn;
    let region = u8::MAX - claim.region;
    (u64::from(claim.start) + 1) * START_UNIT + u64::from(csn) * CSN_UNIT + u64::from(region)
}

/// The claim of a word that [`pack_claim`] made; none below 2^32.
#[tactic(auto, using(crate::specs::laws::Winning::word_of_injective), unfolding(crate::specs::Claims::word_of))]
pub fn unpack_claim(word: u64) -> Option<Claim>
    ensures none { IsNone result ↔ (word < 2 ^ 32) }
    ensures undoes { (claim : Claim) → IsClaim claim → word_of claim ≡ word → result ≡ Some claim }
    ensures claim { IfSome result (λ claim. IsClaim claim × (word_of claim ≡ word)) }
{
    if word < START_UNIT {
        return None;
    }
    let start = (word / START_UNIT - 1) as u32;
    let csn = LAST_CSN - (word / CSN_UNIT % CSN_COUNT) as u32;
    let region = u8::MAX - (word % CSN_UNIT) as u8;
    Some(Claim { start, csn, region })
}

/// Whether the first claim wins over the second.
#[tactic(auto, unfolding(crate::specs::Claims::beats))]
pub fn beats(a: Claim, b: Claim) -> bool
    ensures { result ≡ beats a b }
{
    if a.start != b.start {
        a.start > b.start
    } else if a.csn != b.csn {
        a.csn < b.csn
    } else {
        a.region < b.region
    }
}

/// The laws of winning. Claims that differ are ranked, and the winner has the greater word.
pub fn winning_is_an_order()
    ensures irreflexive { (a : Claim) → beats a a ≡ false }
    ensures transitive { (a b c : Claim) → beats a b ≡ true → beats b c ≡ true → beats a c ≡ true }
    ensures total { (a b : Claim) → beats a b ≡ false → beats b a ≡ false → a ≡ b }
    ensures by_word { (a b : Claim) → IsClaim a → IsClaim b → beats a b ≡ nat_lt (word_of b) (word_of a) }
{}
