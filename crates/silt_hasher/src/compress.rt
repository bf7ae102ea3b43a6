// The compression function of SHA-1: 80 rounds over the words of a block.
ghost use Rattle.std.specs.Prelude.{◌≡◌, ℕ, ◌+◌, ◌≤◌, ◌<◌, List, length, slice_index};
ghost use Rattle.sha1.specs.Sha1.{compress, next_word, round, round_constant, round_fn, rounds, schedule, word_at};

/// The number of rounds.
const ROUNDS: usize = 80;

// The word at a place of a block, its first byte the highest.
fn word_at(block: &[u8], at: usize) -> u32
    requires { at + 4 ≤ length block.now }
    ensures { result ≡ word_at block.now at }
{
    u32::from_be_bytes([block[at], block[at + 1], block[at + 2], block[at + 3]])
}

// The word of a later round, which is made of those before it.
fn next_word(words: &[u32; ROUNDS], t: usize) -> u32
    requires first { 16 ≤ t }
    requires last { t < 80 }
    ensures { result ≡ next_word words.now t }
{
    (words[t - 3] ^ words[t - 8] ^ words[t - 14] ^ words[t - 16]).rotate_left(1)
}

// The words of all rounds.
fn words_of(block: &[u8]) -> [u32; ROUNDS]
    requires { length block.now ≡ 64 }
    ensures { result ≡ schedule block.now 64 }
{
    let mut words = [0u32; ROUNDS];
    'block: for i in 0..16 {
        words[i] = word_at(block, 4 * i);
    }
    'made: for t in 16..ROUNDS {
        words[t] = next_word(&words, t);
    }
    words
}

// The function of three words in a round.
fn round_fn(t: usize, b: u32, c: u32, d: u32) -> u32
    ensures { result ≡ round_fn t b c d }
{
    if t < 20 {
        (b & c) ^ (!b & d)
    } else if t < 40 {
        b ^ c ^ d
    } else if t < 60 {
        (b & c) ^ (b & d) ^ (c & d)
    } else {
        b ^ c ^ d
    }
}

// The constant of a round.
fn round_constant(t: usize) -> u32
    ensures { result ≡ round_constant t }
{
    if t < 20 {
        0x5A82_7999
    } else if t < 40 {
        0x6ED9_EBA1
    } else if t < 60 {
        0x8F1B_BCDC
    } else {
        0xCA62_C1D6
    }
}

// One round.
fn round(t: usize, value: [u32; 5], word: u32) -> [u32; 5]
    ensures { result ≡ round value (round_fn t (slice_index value 1) (slice_index value 2) (slice_index value 3)) (round_constant t) word }
{
    let [a, b, c, d, e] = value;
    let first = a
        .rotate_left(5)
        .wrapping_add(round_fn(t, b, c, d))
        .wrapping_add(e)
        .wrapping_add(round_constant(t))
        .wrapping_add(word);
    [first, a, b.rotate_left(30), c, d]
}

// Five rounds: behind them each word has its place again.
fn five_rounds(t: usize, value: [u32; 5], words: &[u32; ROUNDS]) -> [u32; 5]
    requires { t + 5 ≤ 80 }
    ensures { (h : List ℕ) → value ≡ rounds h words.now t → result ≡ rounds h words.now (t + 5) }
{
    let value = round(t, value, words[t]);
    let value = round(t + 1, value, words[t + 1]);
    let value = round(t + 2, value, words[t + 2]);
    let value = round(t + 3, value, words[t + 3]);
    round(t + 4, value, words[t + 4])
}

// All rounds. In each of the four loops they are of one kind.
fn all_rounds(value: &mut [u32; 5], words: &[u32; ROUNDS])
    ensures { value.new ≡ rounds value.old words.now 80 }
{
    let mut v = *value;
    'choosing: for group in 0..4 {
        let after = five_rounds(5 * group, v, words);
        v = after;
    }
    'odd: for group in 4..8 {
        let after = five_rounds(5 * group, v, words);
        v = after;
    }
    'majority: for group in 8..12 {
        let after = five_rounds(5 * group, v, words);
        v = after;
    }
    'last: for group in 12..16 {
        let after = five_rounds(5 * group, v, words);
        v = after;
    }
    *value = v;
}

/// Takes a block into a hash value.
pub fn compress(value: &mut [u32; 5], block: &[u8])
    requires { length block.now ≡ 64 }
    ensures { value.new ≡ compress value.old block.now }
{
    let words = words_of(block);
    let mut after = *value;
    all_rounds(&mut after, &words);
    *value = [
        value[0].wrapping_add(after[0]),
        value[1].wrapping_add(after[1]),
        value[2].wrapping_add(after[2]),
        value[3].wrapping_add(after[3]),
        value[4].wrapping_add(after[4]),
    ];
}
