//! A number that says what came of a run.

/// Digest of all numbers that were added, in their order.
#[derive(Clone, Copy, Drop)]
pub(crate) struct Digest {
    pub sum: u64,
}

/// A number that another one gives, and that looks like chance.
pub(crate) fn mixed(number: u64) -> u64 {
    let product = (number ^ (number >> 31)).wrapping_mul(0x9e37_79b9_7f4a_7c15);
    product ^ (product >> 29)
}

/// Adds words to lanes, each to its own.
fn add_words(lanes: &mut [u64; 4], words: &[[u8; 8]]) {
    for (lane, word) in lanes.iter_mut().zip(words) {
        let product = (*lane ^ u64::from_le_bytes(*word)).wrapping_mul(0x9e37_79b9_7f4a_7c15);
        *lane = product.rotate_left(29);
    }
}

/// Fewer than eight octets as a number.
fn number_of(octets: &[u8]) -> u64 {
    let mut number = 0;
    for octet in octets {
        number = number << 8 | u64::from(*octet);
    }
    number
}

impl Digest {
    pub(crate) fn new() -> Digest {
        Digest { sum: 1 }
    }

    pub(crate) fn add(&mut self, number: u64) {
        self.sum = mixed(self.sum ^ number);
    }

    /// Adds octets, eight at a time, in four lanes.
    pub(crate) fn add_octets(&mut self, octets: &[u8]) {
        let (words, rest) = octets.as_chunks::<8>();
        let (fours, few) = words.as_chunks::<4>();
        let mut lanes = [1u64, 2, 3, 4];
        for four in fours {
            add_words(&mut lanes, four);
        }
        add_words(&mut lanes, few);
        self.add(octets.len() as u64);
        self.add(number_of(rest));
        for lane in lanes {
            self.add(lane);
        }
    }
}

/// A number that these octets give.
pub(crate) fn digest_of(octets: &[u8]) -> u64 {
    let mut digest = Digest::new();
    digest.add_octets(octets);
    digest.sum
}
