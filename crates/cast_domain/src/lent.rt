use crate::shared::Shared;
use cast_events::Outs;

/// What a domain is lent for a step: what all domains share, and what gathers the step's frames,
/// deliveries and pushes.
#[derive(Drop)]
pub struct Lent<'a> {
    pub shared: &'a mut Shared,
    pub outs: &'a mut Outs,
}
