// What a flow is entitled to.

/// What supplies a bucket: a rate in tokens a second, a maximum rate or none, and the bucket's volume in tokens.
#[derive(Clone, Copy, Debug, Default, PartialEq, Eq, Hash)]
pub struct Supply {
    pub rate: u64,
    pub maximum: Option<u64>,
    pub volume: u64,
}

/// A flow's green and yellow supply, and its coupling flag CF: whether its green overflow goes to its own yellow
/// bucket and not to the rank below.
#[derive(Clone, Copy, Debug, Default, PartialEq, Eq, Hash)]
pub struct Flow {
    pub green: Supply,
    pub yellow: Supply,
    pub cf: bool,
}
