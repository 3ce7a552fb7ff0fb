// The law of the command. The law is the contract; the body only calls the laws that it rests on.
ghost use Rattle.ti_top.specs.Agreement.{OneEnding};

use crate::compiling::one_answer;
use crate::inferring::one_marking;
use ti_lex::one_reading;

/// Two calls with the same arguments, whose sources state the same files with the same bytes, and of
/// which none had a failed read or write or was out of memory, have the same text and the same code.
/// Unless several workers run the program, they have the same status, history and counts of
/// instructions; and if the same watchers were handed in and both standard outputs state what they
/// take, the same output. With several workers, too, they have the same status, the same counts and
/// the same entries of each process, if in the first call all processes end and no entry of its
/// history is part of a race.
pub fn one_ending()
    ensures { OneEnding }
{
    one_reading();
    one_answer();
    one_marking();
}
