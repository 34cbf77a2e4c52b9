// IPv4 networks: from the wire, covering, text.
#![tactic(auto)]

ghost use Rattle.std.specs.Prelude.{◌≡◌, drop};
ghost use Rattle.octets.specs.Rows.{sized, whole};
ghost use Rattle.octets.specs.Writes.{Written};
ghost use Rattle.network.specs.Networks.{address_bits, masked, network_in, covers, relates};
ghost use Rattle.network.specs.Wire.{prefix_size, network_of};
ghost use Rattle.network.specs.Text.{address_text, network_text};

pub const ADDRESS_BITS: u32 = 32;

pub const ADDRESS_SIZE: usize = 4;

const LONGEST_PREFIX: usize = ADDRESS_BITS as usize;

#[derive(Clone, Copy, PartialEq, Eq, Debug)]
pub struct Network {
    pub address: u32,
    pub len: u32,
}

// How a prefix of a message stands to an operand: the same network, one that covers it, one that it covers, or either.
#[derive(Clone, Copy, PartialEq, Eq, Debug)]
pub enum Relation {
    Exact,
    Supernet,
    Subnet,
    Related,
}

// A network of an address: the bits past the length are cleared.
pub fn network_of(address: u32, len: u32) -> Network
    ensures { network_in result ≡ masked address_bits address len }
{
    if ADDRESS_BITS <= len {
        return Network { address, len };
    }
    if len == 0 {
        return Network { address: 0, len };
    }
    let k = ADDRESS_BITS - len;
    Network {
        address: (address >> k) << k,
        len,
    }
}

// The leading bits that the addresses share are the leading zeros of their exclusive-or.
fn covering(a: Network, b: Network) -> bool
    ensures { result ≡ covers (network_in a) (network_in b) }
{
    if b.len < a.len {
        return false;
    }
    a.len <= u32::leading_zeros(a.address ^ b.address)
}

// Whether a prefix stands to an operand as the relation says.
#[tactic(auto, unfolding(crate::specs::Networks::relates))]
pub fn related(relation: Relation, operand: Network, prefix: Network) -> bool
    ensures { result ≡ relates relation (network_in operand) (network_in prefix) }
{
    match relation {
        Relation::Exact => operand == prefix,
        Relation::Supernet => covering(prefix, operand),
        Relation::Subnet => covering(operand, prefix),
        Relation::Related => covering(prefix, operand) || covering(operand, prefix),
    }
}

// The bytes of the prefix at a place, where a whole one stands there.
pub fn prefix_size(s: &[u8], at: usize) -> Option<usize>
    ensures { result ≡ sized (prefix_size address_bits (drop at s.now)) }
{
    if s.len() <= at {
        return None;
    }
    let len = s[at] as usize;
    if LONGEST_PREFIX < len {
        return None;
    }
    let size = 1 + (len + 7) / 8;
    if s.len() - at < size {
        return None;
    }
    Some(size)
}

// The network of the prefix at a place.
pub fn network_at(s: &[u8], at: usize) -> Network
    ensures { network_in result ≡ network_of address_bits (drop at s.now) }
{
    if s.len() <= at {
        return network_of(0, 0);
    }
    let len = octets::number(s, at, 1);
    network_of(octets::number(s, at + 1, ADDRESS_SIZE), len)
}

// The networks of a section of prefixes, up to its end or to the first prefix that isn't whole.
#[derive(Clone, Copy, Debug)]
pub struct Networks<'a>(pub &'a [u8]);

impl<'a> Iterator for Networks<'a> {
    ghost use Rattle.std.specs.Iterator.{YieldsFirstBy, item_count};
    ghost use Rattle.network.specs.Networks.{network_in};
    ghost use Rattle.network.specs.Left.{networks_left};

    type Item = Network;

    ghost next_gives = { YieldsFirstBy network_in networks_left };

    ghost remaining = { item_count networks_left };

    fn next(&mut self) -> Option<Network> {
        let size = prefix_size(self.0, 0)?;
        let network = network_at(self.0, 0);
        self.0 = &self.0[size..];
        Some(network)
    }
}

// Whether a section is prefixes to its end.
pub fn prefixes_whole(s: &[u8]) -> bool
    ensures { result ≡ whole (prefix_size address_bits) s.now }
{
    let mut at = 0;
    while let Some(size) = prefix_size(s, at) {
        at += size;
    }
    at == s.len()
}

// The four parts of an address with dots between.
pub fn put_address(out: &mut [u8], at: usize, address: u32) -> usize
    ensures { Written out.old at (address_text address) out.new result }
{
    let p = octets::put_decimal(out, at, address / 16777216);
    let p = octets::put(out, p, b'.');
    let p = octets::put_decimal(out, p, address / 65536 % 256);
    let p = octets::put(out, p, b'.');
    let p = octets::put_decimal(out, p, address / 256 % 256);
    let p = octets::put(out, p, b'.');
    octets::put_decimal(out, p, address % 256)
}

// `a.b.c.d/len`
pub fn put_network(out: &mut [u8], at: usize, n: Network) -> usize
    ensures { Written out.old at (network_text (network_in n)) out.new result }
{
    let p = put_address(out, at, n.address);
    let p = octets::put(out, p, b'/');
    octets::put_decimal(out, p, n.len)
}
