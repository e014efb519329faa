// The copying leaf and the look for a byte that is not zero, each by itself, for a host that measures them.
#![tactic(auto)]

ghost use Rattle.std.specs.Prelude.{◌≡◌};
ghost use Rattle.leaves.specs.Copy.{answered, left};
ghost use Rattle.leaves.specs.Look.{looked};

// Answers 1 and changes nothing where the lengths differ; otherwise copies, and answers 0: C has no Result.
#[tactic(auto, unfolding(crate::specs::Copy::answered, crate::specs::Copy::left))]
#[unsafe(no_mangle)]
pub extern "C" fn leaf_copy(from: &[u8], to: &mut [u8]) -> u32
    ensures { (result ≡ answered from.now to.old) × (to.new ≡ left from.now to.old) }
{
    if from.len() != to.len() {
        return 1;
    }
    numbers::copy(from, to);
    0
}

// Answers 1 where every byte is zero, and 0 otherwise: a number, as C has it.
#[tactic(auto, unfolding(crate::specs::Look::looked))]
#[unsafe(no_mangle)]
pub extern "C" fn leaf_all_zero(bytes: &[u8]) -> u32
    ensures { result ≡ looked bytes.now }
{
    numbers::all_zero(bytes) as u32
}
