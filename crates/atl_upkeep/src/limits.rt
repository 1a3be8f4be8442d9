//! The divisor of births, which are some hundredths of the peasants. See docs/RULES.md, "Season".

/// The divisor of births: they are a percentage of a region's peasants.
pub(crate) const PER_HUNDRED: u64 = 100;
