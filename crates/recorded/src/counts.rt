// How many cases there are of each number, and how many answers are the recorded ones; and what a program prints of them.
ghost use Rattle.std.specs.Prelude.{◌≡◌};
ghost use Rattle.definitions.specs.Basic.{pick};
ghost use Rattle.recorded.specs.Lent.{raised};

use crate::cell;
use std::io::Result;

// Where the recorded answers are counted: behind all numbers.
const SAME: usize = 256;

// One more of a count.
fn raise(counts: &mut [u32], k: usize)
    ensures { counts.new ≡ raised k counts.old }
{
    if k < counts.len() {
        counts[k] = counts[k].saturating_add(1);
    }
}

fn print_count<R: Print>(rt: &R, text: &str, n: u32) -> Result<()> {
    println!(rt; "{text}{n}")
}

// Case k, with the number of its recorded answer: it is counted, and told where our answer is another one.
pub fn report<R: Print>(rt: &R, counts: &mut [u32], number: u8, is_same: bool, k: u32) -> Result<()>
    ensures { counts.new ≡ pick is_same (raised 256 (raised number counts.old)) (raised number counts.old) }
{
    raise(counts, usize::from(number));
    if is_same {
        raise(counts, SAME);
        return Ok(());
    }
    print_count(rt, "another answer to case ", k)
}

// A number that some case has.
fn print_refusal<R: Print>(rt: &R, k: usize, n: u32) -> Result<()> {
    if n > 0 {
        return println!(rt; "refusal {k} {n}");
    }
    Ok(())
}

fn print_refusals<R: Print>(rt: &R, counts: &[u32]) -> Result<()> {
    for (k, n) in counts.iter().enumerate().take(SAME).skip(1) {
        print_refusal(rt, k, *n)?;
    }
    Ok(())
}

// All counts, of the refusals those that are not 0, and how many cases there are; and where the list does not end with its last case,
// that it does not.
pub fn print_counts<R: Print>(rt: &R, cases: u32, counts: &[u32], is_whole: bool) -> Result<()> {
    print_count(rt, "done ", cell(counts, 0))?;
    print_refusals(rt, counts)?;
    print_count(rt, "cases ", cases)?;
    print_count(rt, "recorded answers ", cell(counts, SAME))?;
    if !is_whole {
        return rt.println("the list ends elsewhere than its last case");
    }
    Ok(())
}
