// That no second reply fits what a public call states. specs/One.antt says what that is;
// proofs/Calls.antt shows it of every public call of every library, over the contract that the call is
// proved to meet.
//
// The one function here is no call of the library. It has a statement of each kind, so that must-fail
// edits can take one away: the function is still proved then, and only proofs/Calls.antt refuses it.
#![tactic(auto)]

ghost use Rattle.std.specs.Prelude.{◌≡◌};

fn kept(number: u8, memory: &mut [u8]) -> u8
    ensures reply { result ≡ number }
    ensures memory { memory.new ≡ memory.old }
{
    number
}
