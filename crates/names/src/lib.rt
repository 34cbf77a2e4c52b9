// Names of message types and of attributes: the code of each.
#![tactic(auto)]

ghost use Rattle.std.specs.Prelude.{◌≡◌};
ghost use Rattle.names.specs.Tables.{found};
ghost use Rattle.names.specs.Held.{table_of};
ghost use Rattle.names.specs.Names.{type_names, attribute_names};

// A word and what it stands for.
pub type Row<T> = (&'static [u8], T);

const TYPES: [Row<u32>; 5] = [
    (b"OPEN", 1),
    (b"UPDATE", 2),
    (b"NOTIFICATION", 3),
    (b"KEEPALIVE", 4),
    (b"ROUTE_REFRESH", 5),
];

const ATTRIBUTES: [Row<u32>; 13] = [
    (b"ORIGIN", 1),
    (b"AS_PATH", 2),
    (b"NEXT_HOP", 3),
    (b"MULTI_EXIT_DISC", 4),
    (b"LOCAL_PREF", 5),
    (b"ATOMIC_AGGREGATE", 6),
    (b"AGGREGATOR", 7),
    (b"COMMUNITY", 8),
    (b"MP_REACH_NLRI", 14),
    (b"MP_UNREACH_NLRI", 15),
    (b"AS4_PATH", 17),
    (b"AS4_AGGREGATOR", 18),
    (b"LARGE_COMMUNITY", 32),
];

// The value of the first row with a word.
pub fn value_in<T: Copy>(rows: &[Row<T>], word: &[u8]) -> Option<T>
    ensures { result ≡ found (table_of rows.now) word.now }
{
    for (name, value) in rows {
        if octets::same(word, name) {
            return Some(*value);
        }
    }
    None
}

// The code of a message type's name.
pub fn type_named(bytes: &[u8]) -> Option<u32>
    ensures { result ≡ found type_names bytes.now }
{
    value_in(&TYPES, bytes)
}

// The code of an attribute's name.
pub fn attribute_named(bytes: &[u8]) -> Option<u32>
    ensures { result ≡ found attribute_names bytes.now }
{
    value_in(&ATTRIBUTES, bytes)
}
