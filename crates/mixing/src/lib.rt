// MIXCOLUMNS and INVMIXCOLUMNS of AES on bit planes, for 32 blocks at a time: word 16 i + 4 r + c has bit i of the bytes in row r and column c.
// A column's planes go from bit 7 down, each stored as soon as the planes that it needs are read: few words are at hand at a time. A column's function
// has one caller and is inlined there, and the loop over the columns then runs on vectors.
#![tactic(auto)]

ghost use Rattle.std.specs.Prelude.{◌+◌, ◌<◌, ◌≡◌};
ghost use Rattle.aes.specs.Aes.{mix_columns, inv_mix_columns};
ghost use Rattle.aes.specs.Planes.{Each};
ghost use Rattle.aes.specs.Columns.{mix_of, premix_of};
ghost use Rattle.mixing.specs.Rows.{rows_at, put_rows, sum_of, next_sums, cross_sums, mixed_of, ReadPut, Column};

use std::array;

// ---- the rows of a plane in a column

// The rows whose first is word k.
// (Like planes' cell_at and put_cell, at other numbers: see there.)
fn rows(q: &[u32; 128], k: usize) -> [u32; 4]
    requires { k < 116 }
    ensures { result ≡ rows_at k q.now }
{
    array::from_fn(|r| q[k + 4 * r])
}

// Stores x as the rows whose first is word k. (They are not neighbours, so no method of slices stores them, and a loop needs an invariant
// that is longer than the four lines.)
fn put_rows(q: &mut [u32; 128], k: usize, x: [u32; 4])
    requires { k < 116 }
    ensures { q.new ≡ put_rows k x q.old }
{
    q[k] = x[0];
    q[k + 4] = x[1];
    q[k + 8] = x[2];
    q[k + 12] = x[3];
}

// The sum of the rows, one by one.
fn sum(x: [u32; 4], y: [u32; 4]) -> [u32; 4]
    ensures { result ≡ sum_of x y }
{
    array::from_fn(|r| x[r] ^ y[r])
}

// The sum of each row and the row below it.
fn next_sums(a: [u32; 4]) -> [u32; 4]
    ensures { result ≡ next_sums a }
{
    array::from_fn(|r| a[r] ^ a[(r + 1) % 4])
}

// The sum of each row and the row two below it.
fn cross_sums(a: [u32; 4]) -> [u32; 4]
    ensures { result ≡ cross_sums a }
{
    let x = a[0] ^ a[2];
    let y = a[1] ^ a[3];
    [x, y, x, y]
}

// The sum of h with the three rows below each row.
fn mixed(h: [u32; 4], a: [u32; 4]) -> [u32; 4]
    ensures { result ≡ mixed_of h a }
{
    array::from_fn(|r| h[r] ^ (a[(r + 1) % 4] ^ (a[(r + 2) % 4] ^ a[(r + 3) % 4])))
}

// ---- MIXCOLUMNS (5.1.3): 2 (a + b) + b + c + d, where b, c and d are the rows below a

// Stores the mixed rows of a bit, which are a, where doubling (4.2) adds the rows t; the result is the rows of the bit below, at k.
// (One function for all bits: t is zeros where doubling adds nothing.)
fn mix_rows(q: &mut [u32; 128], k: usize, a: [u32; 4], t: [u32; 4]) -> [u32; 4]
    requires { k < 100 }
    ensures { ReadPut k (k + 16) (λ x. mixed_of (sum_of (next_sums x) (next_sums t)) a) q.old result q.new }
{
    let b = rows(q, k);
    put_rows(q, k + 16, mixed(sum(next_sums(b), next_sums(t)), a));
    b
}

// MIXCOLUMNS of column c. Doubling adds bit 7 to bits 1, 3 and 4.
fn mix_column(q: &mut [u32; 128], c: usize)
    requires { c < 4 }
    ensures { Column mix_of c q.old q.new }
{
    let none = [0u32; 4];
    let a7 = rows(q, c + 112);
    let a6 = mix_rows(q, c + 96, a7, none);
    let a5 = mix_rows(q, c + 80, a6, none);
    let a4 = mix_rows(q, c + 64, a5, none);
    let a3 = mix_rows(q, c + 48, a4, a7);
    let a2 = mix_rows(q, c + 32, a3, a7);
    let a1 = mix_rows(q, c + 16, a2, none);
    let a0 = mix_rows(q, c, a1, a7);
    put_rows(q, c, mixed(next_sums(a7), a0));
}

// MIXCOLUMNS (5.1.3), in place.
pub fn mix_columns(q: &mut [u32; 128])
    ensures { Each mix_columns q.old q.new }
{
    for c in 0..4 {
        mix_column(q, c);
    }
}

// ---- INVMIXCOLUMNS (5.3.3): a + 4 (a + c), where c is the row two below a, and then MIXCOLUMNS

// Stores the rows of a bit, which are a, with those of 4 (a + c), to which the doublings (4.2) add t; the result is the rows of the
// second bit below, at k.
// (One function for all bits, as mix_rows; the two differ in the plane that they reach and in the sum.)
fn premix_rows(q: &mut [u32; 128], k: usize, a: [u32; 4], t: [u32; 4]) -> [u32; 4]
    requires { k < 84 }
    ensures { ReadPut k (k + 32) (λ x. sum_of a (sum_of (cross_sums x) t)) q.old result q.new }
{
    let b = rows(q, k);
    put_rows(q, k + 32, sum(a, sum(cross_sums(b), t)));
    b
}

// The first step of INVMIXCOLUMNS, for column c. The doublings add to bits 2 to 5.
fn premix_column(q: &mut [u32; 128], c: usize)
    requires { c < 4 }
    ensures { Column premix_of c q.old q.new }
{
    let none = [0u32; 4];
    let a7 = rows(q, c + 112);
    let a6 = rows(q, c + 96);
    let s7 = cross_sums(a7);
    let s6 = cross_sums(a6);
    let both = sum(s7, s6);
    let a5 = premix_rows(q, c + 80, a7, none);
    let a4 = premix_rows(q, c + 64, a6, none);
    let a3 = premix_rows(q, c + 48, a5, s7);
    let a2 = premix_rows(q, c + 32, a4, both);
    let a1 = premix_rows(q, c + 16, a3, s6);
    let a0 = premix_rows(q, c, a2, s7);
    put_rows(q, c + 16, sum(a1, both));
    put_rows(q, c, sum(a0, s6));
}

// INVMIXCOLUMNS (5.3.3), in place.
pub fn inv_mix_columns(q: &mut [u32; 128])
    ensures { Each inv_mix_columns q.old q.new }
{
    for c in 0..4 {
        premix_column(q, c);
    }
    mix_columns(q);
}
