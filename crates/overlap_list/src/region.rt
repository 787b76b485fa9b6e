use bool_weave::ClaimRow;

/// What a region claims of a ray.
#[derive(Debug, Drop)]
pub struct RegionClaims {
    /// Whether it has air, which never wins against a region without.
    pub air: bool,
    /// The number of its first instance.
    pub first: u32,
    /// How many instances it has.
    pub count: u32,
    /// The intervals that it claims.
    pub claims: ClaimRow,
}
