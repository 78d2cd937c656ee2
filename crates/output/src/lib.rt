// What a write into a lent buffer answers, whatever is written.
#![tactic(auto)]

ghost use Rattle.std.specs.Prelude.{◌≡◌, true};
ghost use Rattle.output.specs.Output.{outcome_as, buffer_as};

use refusals::Refusal;

// 0 or the number of the refusal, and how many bytes were written. (01: write answers with a number, and 0 means done. Beside it stand the
// bytes written; on a refusal these are 0.) On the way to it the answer is a Result.
#[derive(Clone, Copy, Debug, PartialEq, Eq, Hash)]
pub struct Written {
    pub result: u8,
    pub bytes: usize,
}

impl From<Result<usize, Refusal>> for Written {
    ghost use Rattle.output.specs.Output.{answered};

    ghost from_gives = { λ outcome w. w ≡ answered outcome };

    fn from(outcome: Result<usize, Refusal>) -> Written {
        match outcome {
            Ok(bytes) => Written { result: 0, bytes },
            Err(refusal) => Written {
                result: refusal.number(),
                bytes: 0,
            },
        }
    }
}

// Hands bytes that were made elsewhere to a lent buffer: where it is too short, it stays as it is.
pub fn hand_over(bytes: &[u8], out: &mut [u8]) -> Result<usize, Refusal>
    ensures result { result ≡ outcome_as bytes.now true out.old }
    ensures buffer { out.new ≡ buffer_as bytes.now true out.old }
{
    let n = bytes.len();
    if out.len() < n {
        return Err(Refusal::UnfitOutput);
    }
    out[..n].copy_from_slice(bytes);
    Ok(n)
}
