// The compression of one block (RFC 7693, 3.1 and 3.2).

ghost use Rattle.std.specs.Prelude.{◌≡◌, ℕ, ◌+◌, ◌<◌, ◌≤◌, IsTrue, length, nat_lt};
ghost use Rattle.std.specs.List.{list_all};
ghost use Rattle.sdb_blake2.specs.Blake2b.{words_of_block, compress, half_mixed, mixed, round, rounds, sigma_row, word_at, working_vector};

pub(crate) const BLOCK_LEN: usize = 128;

// IV (2.6).
pub(crate) const INITIAL_WORDS: [u64; 8] = [
    0x6A09E667F3BCC908,
    0xBB67AE8584CAA73B,
    0x3C6EF372FE94F82B,
    0xA54FF53A5F1D36F1,
    0x510E527FADE682D1,
    0x9B05688C2B3E6C1F,
    0x1F83D9ABFB41BD6B,
    0x5BE0CD19137E2179,
];

// SIGMA (2.7).
const SIGMA: [[usize; 16]; 10] = [
    [0, 1, 2, 3, 4, 5, 6, 7, 8, 9, 10, 11, 12, 13, 14, 15],
    [14, 10, 4, 8, 9, 15, 13, 6, 1, 12, 0, 2, 11, 7, 5, 3],
    [11, 8, 12, 0, 5, 2, 15, 13, 10, 14, 3, 6, 7, 1, 9, 4],
    [7, 9, 3, 1, 13, 12, 11, 14, 2, 6, 5, 10, 4, 0, 15, 8],
    [9, 0, 5, 7, 2, 4, 10, 15, 14, 1, 11, 12, 6, 8, 3, 13],
    [2, 12, 6, 10, 0, 11, 8, 3, 4, 13, 7, 5, 15, 14, 1, 9],
    [12, 5, 1, 15, 14, 13, 4, 10, 0, 7, 6, 3, 9, 2, 8, 11],
    [13, 11, 7, 14, 12, 1, 3, 9, 5, 0, 15, 4, 8, 6, 2, 10],
    [6, 15, 14, 9, 11, 3, 0, 8, 12, 2, 13, 7, 1, 4, 10, 5],
    [10, 2, 8, 4, 7, 6, 1, 5, 15, 11, 9, 14, 3, 12, 13, 0],
];

// One half of G, which adds the message word `x` and rotates by `r` and `s` (3.1).
#[inline(always)]
fn half_mix(v: &mut [u64; 16], a: usize, b: usize, c: usize, d: usize, x: u64, r: u32, s: u32)
    requires a { a < 16 }
    requires b { b < 16 }
    requires c { c < 16 }
    requires d { d < 16 }
    ensures { v.new ≡ half_mixed v.old a b c d x r s }
{
    let va = v[a].wrapping_add(v[b]).wrapping_add(x);
    let vd = (v[d] ^ va).rotate_right(r);
    let vc = v[c].wrapping_add(vd);
    let vb = (v[b] ^ vc).rotate_right(s);
    v[a] = va;
    v[d] = vd;
    v[c] = vc;
    v[b] = vb;
}

// G at the places `a`, `b`, `c` and `d`, with the message words `x` and `y` (3.1).
#[inline(always)]
fn mix(v: &mut [u64; 16], a: usize, b: usize, c: usize, d: usize, x: u64, y: u64)
    requires a { a < 16 }
    requires b { b < 16 }
    requires c { c < 16 }
    requires d { d < 16 }
    ensures { v.new ≡ mixed v.old a b c d x y }
{
    half_mix(v, a, b, c, d, x, 32, 24);
    half_mix(v, a, b, c, d, y, 16, 63);
}

// One round, whose row of the message schedule is `row` (3.2).
#[inline(always)]
fn round(v: &mut [u64; 16], m: &[u64; 16], row: &[usize; 16])
    requires { IsTrue (list_all (λ k. nat_lt k 16) row.now) }
    ensures { (r : ℕ) → row.now ≡ sigma_row r → v.new ≡ round v.old m.now r }
{
    mix(v, 0, 4, 8, 12, m[row[0]], m[row[1]]);
    mix(v, 1, 5, 9, 13, m[row[2]], m[row[3]]);
    mix(v, 2, 6, 10, 14, m[row[4]], m[row[5]]);
    mix(v, 3, 7, 11, 15, m[row[6]], m[row[7]]);
    mix(v, 0, 5, 10, 15, m[row[8]], m[row[9]]);
    mix(v, 1, 6, 11, 12, m[row[10]], m[row[11]]);
    mix(v, 2, 7, 8, 13, m[row[12]], m[row[13]]);
    mix(v, 3, 4, 9, 14, m[row[14]], m[row[15]]);
}

// The twelve rounds, written out so that each place in the message is a constant (3.2).
#[inline(always)]
fn twelve_rounds(v: &mut [u64; 16], m: &[u64; 16])
    ensures { v.new ≡ rounds v.old m.now 12 }
{
    round(v, m, &SIGMA[0]);
    round(v, m, &SIGMA[1]);
    round(v, m, &SIGMA[2]);
    round(v, m, &SIGMA[3]);
    round(v, m, &SIGMA[4]);
    round(v, m, &SIGMA[5]);
    round(v, m, &SIGMA[6]);
    round(v, m, &SIGMA[7]);
    round(v, m, &SIGMA[8]);
    round(v, m, &SIGMA[9]);
    round(v, m, &SIGMA[0]);
    round(v, m, &SIGMA[1]);
}

// The word at byte `i` of a block (2.4).
#[inline(always)]
fn word_at(block: &[u8], i: usize) -> u64
    requires { i + 8 ≤ length block.now }
    ensures { result ≡ word_at block.now i }
{
    u64::from_le_bytes([
        block[i],
        block[i + 1],
        block[i + 2],
        block[i + 3],
        block[i + 4],
        block[i + 5],
        block[i + 6],
        block[i + 7],
    ])
}

// The sixteen words of a block.
#[inline(always)]
fn words_of_block(block: &[u8]) -> [u64; 16]
    requires { length block.now ≡ 128 }
    ensures { result ≡ words_of_block block.now 16 }
{
    let mut words = [0u64; 16];
    'load: for i in 0..16usize {
        words[i] = word_at(block, 8 * i);
    }
    words
}

// The working vector of the state `h` after `count` bytes, which is below 2 ^ 64, so that the
// counter's high word is 0 (3.2).
#[inline(always)]
fn working_vector(h: [u64; 8], count: u64, last: bool) -> [u64; 16]
    ensures { result ≡ working_vector h count last }
{
    let iv = INITIAL_WORDS;
    let final_word = if last { !iv[6] } else { iv[6] };
    [
        h[0],
        h[1],
        h[2],
        h[3],
        h[4],
        h[5],
        h[6],
        h[7],
        iv[0],
        iv[1],
        iv[2],
        iv[3],
        iv[4] ^ count,
        iv[5],
        final_word,
        iv[7],
    ]
}

// F: takes in a block, with `count` message bytes up to and with it. `last` is the final block
// flag (3.2).
pub(crate) fn compress(state: &mut [u64; 8], block: &[u8], count: u64, last: bool)
    requires { length block.now ≡ 128 }
    ensures { state.new ≡ compress state.old block.now count last }
{
    let h = *state;
    let words = words_of_block(block);
    let mut v = working_vector(h, count, last);
    twelve_rounds(&mut v, &words);
    *state = [
        h[0] ^ v[0] ^ v[8],
        h[1] ^ v[1] ^ v[9],
        h[2] ^ v[2] ^ v[10],
        h[3] ^ v[3] ^ v[11],
        h[4] ^ v[4] ^ v[12],
        h[5] ^ v[5] ^ v[13],
        h[6] ^ v[6] ^ v[14],
        h[7] ^ v[7] ^ v[15],
    ];
}
