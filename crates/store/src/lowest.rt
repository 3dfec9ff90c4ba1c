// The search for the lowest number that a store lacks, proved for every store from the trait alone.
ghost use Rattle.std.specs.Prelude.{◌≡◌};
ghost use Rattle.store.specs.Pairs.{lowest_missing, Lowest};

use super::Store;

// The lowest number from `start` on that is not held.
pub fn lowest_missing<S: Store>(store: &mut S, start: u32) -> u32
    ensures lowest { Lowest start (S.meaning store.old).pairs result }
    ensures value { result ≡ lowest_missing start (S.meaning store.old).pairs }
    ensures same { S.meaning store.new ≡ S.meaning store.old }
{
    // Not by `for`: a number that is known to stay below the last is carried in 64 bits, and a slot store then divides it
    // in each look.
    let mut low = start;
    while store.has(low) {
        low += 1;
    }
    low
}
