// The source of the program of a seed.
ghost use Rattle.std.specs.Prelude.{◌≡◌, ◌++◌, IfOk, OnOk};
ghost use Rattle.ti_gen.specs.Source.{next, step_text, steps_text, source_text, step_total};

use itoa::Buffer;
use std::alloc::Global;
use ti_base::Memory;

/// The number of steps of the program.
const STEPS: u32 = 200;

/// The source before the steps.
const HEAD: &[u8] = b"class Main {
  public static single void main(String[] args) {
    int me = Ti.thisProc();
    int single n = Ti.numProcs();
    int [1d] a = new int [0:19];
    int [1d] [1d] all = new int [0:n - 1] [1d];
    all.exchange(a);
    int s = 0;
";

/// The source after the steps.
const TAIL: &[u8] = b"    println(s);
  }
}
";

// The next pseudo-random number: a linear congruential generator modulo 2^32.
fn next_number(state: u32) -> u32
    ensures { result ≡ next state }
{
    ((1664525 * u64::from(state) + 1013904223) % (1 << 32)) as u32
}

// Appends the lines of a step.
fn add_step(text: &mut Vec<u8>, factor: u32, index: u32) -> Result<(), Memory>
    ensures { OnOk result (text.new.items ≡ text.old.items ++ step_text factor index) }
{
    let mut buffer = Buffer::new();
    text.extend_from_slice(b"    foreach (p in a.domain()) a[p] = a[p] + ")?;
    text.extend_from_slice(buffer.format(factor).as_bytes())?;
    text.extend_from_slice(b" * (me + p[1]);\n    Ti.barrier();\n")?;
    text.extend_from_slice(b"    s = s + all[(me + 1) % n][")?;
    text.extend_from_slice(buffer.format(index).as_bytes())?;
    text.extend_from_slice(b"];\n    Ti.barrier();\n")?;
    Ok(())
}

// Appends the lines of all steps.
fn add_steps(text: &mut Vec<u8>, seed: u32) -> Result<(), Memory>
    ensures { OnOk result (text.new.items ≡ text.old.items ++ steps_text seed step_total) }
{
    let mut x = seed;
    for step in 0..STEPS {
        let first = next_number(x);
        x = next_number(first);
        add_step(text, first / 65536, x / 65536 % 20)?;
    }
    Ok(())
}

/// The source of the program of a seed: 200 steps, in each of which a process changes its grid and then adds an element of its
/// neighbour's to a sum, with a factor and an index from the pseudo-random numbers of the seed. Errors only if it runs out of memory.
pub fn gen_source(alloc: Global, seed: u32) -> Result<Vec<u8>, Memory>
    ensures { IfOk result (λ text. text.items ≡ source_text seed) }
{
    let mut text = Vec::new(alloc);
    text.extend_from_slice(HEAD)?;
    add_steps(&mut text, seed)?;
    text.extend_from_slice(TAIL)?;
    Ok(text)
}
