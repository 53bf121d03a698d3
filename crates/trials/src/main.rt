// Tries the libraries at their limits, and prints what they answer.
#![tactic(auto)]

mod claims_tried;
mod components_tried;
mod slots;
mod texts_tried;

use claims_tried::try_claims;
use components_tried::try_components;
use texts_tried::try_texts;

fn main(rt: HostRuntime) -> anyhow::Result<()> {
    try_texts(&rt)?;
    try_components(&rt)?;
    try_claims(&rt)
}
