//! Compares the proved joining of cuts with a plain one, which goes bit by bit over the rows of a table.
//! It prints how many joins of a fixed sequence agree, and what they came to.
#![tactic(auto)]

mod plain;

use cuts::{Cut, SignedCut, Squeezed, join};
use plain::Plain;
use std::io;

const POOL: usize = 64;

const JOINS: usize = 600;

/// The next of a fixed sequence of numbers.
fn next(seed: u64) -> u64 {
    seed.wrapping_mul(6364136223846793005)
        .wrapping_add(1442695040888963407)
}

/// Two cuts with their signs, and a leaf limit.
#[derive(Clone, Copy)]
struct Pair<'a> {
    a: SignedCut<'a>,
    b: SignedCut<'a>,
    limit: usize,
}

/// The pair that a number picks, and a limit of 3 to 5.
fn pick(pool: &[Cut; POOL], seed: u64) -> Pair<'_> {
    Pair {
        a: SignedCut {
            cut: &pool[(seed >> 40) as usize % POOL],
            sign: seed >> 50 & 1 == 1,
        },
        b: SignedCut {
            cut: &pool[(seed >> 33) as usize % POOL],
            sign: seed >> 51 & 1 == 1,
        },
        limit: (seed >> 52) as usize % 3 + 3,
    }
}

/// Whether both joinings come to the same.
fn agree(joined: Option<Squeezed>, plain: Option<Plain>) -> bool {
    match (joined, plain) {
        (None, None) => true,
        (Some(Squeezed::Constant(value)), Some(plain)) => plain.is_constant(value),
        (Some(Squeezed::Cut(cut)), Some(plain)) => plain.is_cut(&cut),
        _ => false,
    }
}

/// How many joins came to what.
#[derive(Clone, Copy, Default)]
struct Tally {
    agreed: u64,
    wide: u64,
    constant: u64,
    cut: u64,
}

impl Tally {
    fn count(&mut self, joined: Option<Squeezed>, agreed: bool) {
        let outcome = match joined {
            None => &mut self.wide,
            Some(Squeezed::Constant(_)) => &mut self.constant,
            Some(Squeezed::Cut(_)) => &mut self.cut,
        };
        *outcome = outcome.saturating_add(1);
        self.agreed = self.agreed.saturating_add(u64::from(agreed));
    }
}

/// The trivial cuts of six nodes, some places each; later joins take the places one after another.
fn trivial_cuts() -> [Cut; POOL] {
    let mut pool = [Cut::trivial(1); POOL];
    for (place, cut) in pool.iter_mut().enumerate() {
        *cut = Cut::trivial((place % 6 + 1) as u16);
    }
    pool
}

fn compare() -> Tally {
    let mut pool = trivial_cuts();
    let mut tally = Tally::default();
    let mut seed = 1;
    for turn in 0..JOINS {
        seed = next(seed);
        let p = pick(&pool, seed);
        let joined = join(p.a, p.b, p.limit);
        tally.count(joined, agree(joined, Plain::join(p.a, p.b, p.limit)));
        if let Some(Squeezed::Cut(cut)) = joined {
            pool[turn % POOL] = cut;
        }
    }
    tally
}

fn main(rt: HostRuntime) -> io::Result<()> {
    let tally = compare();
    println!(rt; "joins={JOINS} agreed={}", tally.agreed)?;
    println!(rt;
        "wide={} constant={} cut={}",
        tally.wide, tally.constant, tally.cut
    )
}
