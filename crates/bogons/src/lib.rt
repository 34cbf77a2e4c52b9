// AS numbers that are reserved or for private use: the table of document 000, and the search for a number in it.
#![tactic(auto)]

ghost use Rattle.std.specs.Prelude.{◌≡◌, ◌+◌, ◌≤◌, leb};
ghost use Rattle.bogons.specs.Bogons.{is_bogon};
ghost use Rattle.bogons.specs.Search.{after, pair_holds, bogon_search, most_comparisons};

// A range of AS numbers.
#[derive(Clone, Copy, Debug, PartialEq, Eq)]
pub struct Range {
    pub low: u32,
    pub high: u32,
}

// What a search of a table told: whether some range holds the number, and how often the number was compared with a bound. No Option: the
// comparisons are told where no range holds it too.
#[derive(Clone, Copy, Debug, PartialEq, Eq)]
pub struct Lookup {
    pub found: bool,
    pub comparisons: usize,
}

// The table stands in aspath too: nothing uses this crate yet.
const BOGON_RANGES: usize = 9;

const BOGONS: [Range; BOGON_RANGES] = [
    Range { low: 0, high: 0 },
    Range {
        low: 23456,
        high: 23456,
    },
    Range {
        low: 64496,
        high: 64511,
    },
    Range {
        low: 64512,
        high: 65534,
    },
    Range {
        low: 65535,
        high: 65535,
    },
    Range {
        low: 65536,
        high: 65551,
    },
    Range {
        low: 65552,
        high: 131071,
    },
    Range {
        low: 4200000000,
        high: 4294967294,
    },
    Range {
        low: 4294967295,
        high: 4294967295,
    },
];

// The last comparison, after so many others: with the high bound of the only range that could hold the number.
fn decided(n: u32, high: u32, before: usize) -> Lookup
    requires { before + 1 ≤ most_comparisons }
    ensures { result ≡ after (before + 1) (leb n high) }
{
    Lookup {
        found: n <= high,
        comparisons: before + 1,
    }
}

// Two ranges, one after the other.
fn search_pair(n: u32, a: Range, b: Range, before: usize) -> Lookup
    requires { before + 2 ≤ most_comparisons }
    ensures { result ≡ after (before + 2) (pair_holds n a b) }
{
    if n < b.low {
        return decided(n, a.high, before + 1);
    }
    decided(n, b.high, before + 1)
}

// Whether a number lies in a range of the table. Most numbers of collected paths lie below the third range, so its low bound comes first. The places
// are written out: for an index that varies the table would be built anew each time.
pub fn look_up(n: u32) -> Lookup
    ensures { (result ≡ bogon_search n) × (result.found ≡ is_bogon n) × (result.comparisons ≤ most_comparisons) }
{
    let table = BOGONS;
    if n < table[2].low {
        return search_pair(n, table[0], table[1], 1);
    }
    if n < table[5].low {
        if n < table[3].low {
            return decided(n, table[2].high, 3);
        }
        return search_pair(n, table[3], table[4], 3);
    }
    if n < table[7].low {
        return search_pair(n, table[5], table[6], 3);
    }
    search_pair(n, table[7], table[8], 3)
}
