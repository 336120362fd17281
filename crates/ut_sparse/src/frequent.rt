//! The most frequent code of a list.
ghost use Rattle.std.specs.Prelude.{◌≡◌, ℕ, ◌+◌, ◌^◌, ◌<◌, ◌≤◌, length, slice_index, IfOk, ◌≢◌};
ghost use Rattle.std.specs.Ordering.{nat_cmp};
ghost use Rattle.std.specs.List.Sorted.{IsSorted};
ghost use Rattle.ut_bits.specs.Bits.{AllBelow};
ghost use Rattle.ut_sparse.specs.Frequent.{count_of, most_frequent, IsMostFrequent};

use std::alloc::{AllocError, Global};

/// A code, and how often it stands in a list.
#[derive(Clone, Copy)]
pub struct Frequency {
    pub code: u32,
    pub count: u32,
}

/// The code that stands most often, the smallest of those: by a table of counts where the codes
/// are not much greater than their number, else by a sorted copy.
pub fn most_frequent(alloc: Global, codes: &[u32]) -> Result<Frequency, AllocError>
    requires count { length codes.now ≤ 2 ^ 31 }
    ensures code { IfOk result (λ f. f.code ≡ most_frequent codes.now) }
    ensures count { IfOk result (λ f. f.count ≡ count_of f.code codes.now) }
    ensures most { IfOk result (λ f. IsMostFrequent codes.now f.code) }
{
    let greatest = greatest_of(codes) as usize;
    if greatest / 4 <= codes.len() {
        return by_table(alloc, codes, greatest + 1);
    }
    by_sort(alloc, codes)
}

// The greatest code, or 0.
fn greatest_of(codes: &[u32]) -> u32
    ensures { AllBelow (result + 1) codes.now }
{
    let mut greatest = 0;
    for code in codes {
        if *code > greatest {
            greatest = *code;
        }
    }
    greatest
}

fn by_table(alloc: Global, codes: &[u32], limit: usize) -> Result<Frequency, AllocError>
    requires count { length codes.now ≤ 2 ^ 31 }
    requires some { 0 < limit }
    requires fits { limit ≤ 2 ^ 32 }
    requires below { AllBelow limit codes.now }
    ensures code { IfOk result (λ f. f.code ≡ most_frequent codes.now) }
    ensures count { IfOk result (λ f. f.count ≡ count_of f.code codes.now) }
    ensures most { IfOk result (λ f. IsMostFrequent codes.now f.code) }
{
    let counts = tally(alloc, codes, limit)?;
    let counts = counts.as_slice();
    let best = first_greatest(counts);
    Ok(Frequency {
        code: best as u32,
        count: counts[best],
    })
}

// How often each code below the limit stands.
fn tally(alloc: Global, codes: &[u32], limit: usize) -> Result<Vec<u32>, AllocError>
    requires count { length codes.now ≤ 2 ^ 31 }
    requires below { AllBelow limit codes.now }
    ensures len { IfOk result (λ v. length v.items ≡ limit) }
    ensures counts { IfOk result (λ v. (d : ℕ) → d < limit → slice_index v.items d ≡ count_of d codes.now) }
{
    let mut counts = Vec::new(alloc);
    counts.resize(limit, 0u32)?;
    add_counts(counts.as_mut_slice(), codes);
    Ok(counts)
}

// Adds one to the count of each code.
fn add_counts(counts: &mut [u32], codes: &[u32])
    requires count { length codes.now ≤ 2 ^ 31 }
    requires zero { (d : ℕ) → slice_index counts.old d ≡ 0 }
    requires below { AllBelow (length counts.old) codes.now }
    ensures { (d : ℕ) → d < length counts.new → slice_index counts.new d ≡ count_of d codes.now }
{
    for code in codes {
        counts[*code as usize] += 1;
    }
}

// The first place of the greatest number.
fn first_greatest(counts: &[u32]) -> usize
    requires { 0 < length counts.now }
    ensures within { result < length counts.now }
    ensures greatest { (d : ℕ) → d < length counts.now → slice_index counts.now d ≤ slice_index counts.now result }
    ensures first { (d : ℕ) → d < length counts.now → slice_index counts.now d ≡ slice_index counts.now result → result ≤ d }
{
    let mut best = 0;
    for i in 1..counts.len() {
        if counts[i] > counts[best] {
            best = i;
        }
    }
    best
}

fn by_sort(alloc: Global, codes: &[u32]) -> Result<Frequency, AllocError>
    requires count { length codes.now ≤ 2 ^ 31 }
    ensures code { IfOk result (λ f. f.code ≡ most_frequent codes.now) }
    ensures count { IfOk result (λ f. f.count ≡ count_of f.code codes.now) }
    ensures most { IfOk result (λ f. IsMostFrequent codes.now f.code) }
{
    let mut sorted = Vec::from_slice(alloc, codes)?;
    sorted.sort_unstable();
    Ok(longest_run(sorted.as_slice()))
}

// The first code of those with the longest run of equal codes.
fn longest_run(sorted: &[u32]) -> Frequency
    requires count { length sorted.now ≤ 2 ^ 31 }
    requires sorted { IsSorted nat_cmp sorted.now }
    ensures count { result.count ≡ count_of result.code sorted.now }
    ensures most { IsMostFrequent sorted.now result.code }
{
    let mut best = Frequency { code: 0, count: 0 };
    let mut run = best;
    for code in sorted {
        run = lengthened(run, *code);
        best = longer(best, run);
    }
    best
}

// The run that ends with a code, behind the run before it.
fn lengthened(run: Frequency, code: u32) -> Frequency
    requires { run.count ≤ 2 ^ 31 }
    ensures code { result.code ≡ code }
    ensures same { run.code ≡ code → result.count ≡ run.count + 1 }
    ensures other { run.code ≢ code → result.count ≡ 1 }
{
    let count = if run.code == code { run.count + 1 } else { 1 };
    Frequency { code, count }
}

// The longer of two runs, the first on a tie.
fn longer(best: Frequency, run: Frequency) -> Frequency
    ensures stays { run.count ≤ best.count → result ≡ best }
    ensures grows { best.count < run.count → result ≡ run }
{
    if run.count > best.count { run } else { best }
}
