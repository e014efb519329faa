// Recovery, and the check of a lent index against what recovery would give.
#![tactic(auto)]

ghost use Rattle.std.specs.Prelude.{◌≡◌, [], ◌≤◌, IfOk};
ghost use Rattle.paper.specs.Image.{taken};
ghost use Rattle.paper.specs.WellFormed.{in_order};
ghost use Rattle.paper.specs.Calls.{recover};
ghost use Rattle.paper.specs.Answers.{no_in, answered, plain};
ghost use Rattle.paper.specs.Outcomes.{lent, gives, outcome};
ghost use Rattle.paper.specs.Refusals.{refusal};
ghost use Rattle.rules.specs.Lines.{ordered_no};
ghost use Rattle.image.specs.Views.{front_of, IsImage};
ghost use Rattle.recovery.specs.Refused.{loosely, vouched};

use image::{Headed, Image};
use index::{Lent, Tables};
use paper::{Geometry, Refusal};

// Rules a to e, but for the last sentence of d.
#[tactic(auto, unfolding(crate::specs::Refused::loosely))]
fn loosely(headed: &Headed<'_>) -> bool
    ensures { result ≡ loosely headed.now.image.g (front_of headed.now.image) }
{
    headed.image.regions_in_order() && headed.image.all_named() && headed.image.rule_e()
}

fn in_order(headed: &Headed<'_>) -> bool
    ensures { result ≡ in_order headed.now.image.g (front_of headed.now.image) }
{
    let image = headed.image;
    loosely(headed) && Tables { image }.alone_all()
}

// 1 to 4, 16, 5, 6.
#[tactic(auto, using(rules::proofs::Facts::order_rules, rules::proofs::Lines::indexed_head_shown, rules::proofs::Lines::whole_entered, rules::proofs::Lines::recover_16, rules::proofs::Lines::recover_5, rules::proofs::Lines::recover_6, rules::proofs::Lines::recover_0))]
fn recoverable<'a>(g: Geometry, image: &'a [u8], index: &[u8]) -> Result<Image<'a>, Refusal>
    ensures number { no_in result ≡ refusal g image.now index.now recover }
    ensures image { IfOk result (λ i. IsImage g image.now i) }
{
    let headed = desk::indexed_head(g, image, index)?;
    if !headed.image.unused_blank() {
        return Err(Refusal::Newer);
    }
    if desk::tail_missing(&headed) {
        return Err(Refusal::TailMissing);
    }
    if !in_order(&headed) {
        return Err(Refusal::TablesWrong);
    }
    Ok(headed.image)
}

// Whether the tables keep the rules and the index is what recovery would give: the index is its own witness. Its starts tell the needs and
// their sum, so that each book fits, and its slots that no two blocks name the same pair. (N is at most B: index asks no more of the header.)
#[tactic(auto, unfolding(crate::specs::Refused::vouched))]
fn vouched(lent: &Lent<'_, '_>) -> bool
    requires image_bound { taken lent.now.image.g (front_of lent.now.image) ≤ lent.now.image.g.blocks }
    ensures { result ≡ vouched lent.now.image.g (front_of lent.now.image) lent.now.index.bytes.now }
{
    lent.image.rule_a() && lent.image.reclaimed_whole() && lent.image.rule_e() && lent.witnessed()
}

// 1 to 7. Only where the index is not its own witness are the rules asked of the tables alone, to tell 6 from 7.
#[tactic(auto, using(rules::proofs::Lines::entered_shown, rules::proofs::Lines::ordered_6))]
pub fn ordered(g: Geometry, image: &[u8], index: &[u8]) -> Result<(), Refusal>
    ensures { no_in result ≡ ordered_no g image.now index.now }
{
    let lent = desk::entered(g, image, index)?;
    if vouched(&lent) {
        return Ok(());
    }
    let image = lent.image;
    if !in_order(&Headed { image }) {
        return Err(Refusal::TablesWrong);
    }
    Err(Refusal::IndexWrong)
}

// Recover: writes the whole index from the image.
#[tactic(auto, using(rules::proofs::Lines::recover_done))]
pub fn recover(g: Geometry, image: &[u8], index: &mut [u8]) -> Result<(), Refusal>
    ensures { gives (answered plain result) [] (lent image.now index.new) ≡ outcome g recover (lent image.now index.old) }
{
    let image = recoverable(g, image, index)?;
    index::write_index(&image, index);
    Ok(())
}
