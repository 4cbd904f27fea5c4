use promises::Refusal;

/// A declined call that hands its token back.
#[derive(Drop)]
pub struct Declined<T> {
    pub refusal: Refusal,
    pub token: T,
}
