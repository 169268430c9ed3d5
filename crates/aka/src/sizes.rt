ghost use Rattle.std.specs.Prelude.{◌≡◌, ◌≤◌};

mod admit;

// What masks the number in an AUTS: f5*, or f5** of its MAC-S.
#[derive(Clone, Copy)]
pub enum ResyncMask {
    F5Star,
    F5StarStar,
}

// A size set: the sizes of an end, in bytes, and what masks the number in an AUTS.
#[derive(Clone, Copy)]
pub struct Sizes {
    pub rand: usize,
    pub sqn: usize,
    pub ak: usize,
    pub mac: usize,
    pub res: usize,
    pub ck: usize,
    pub ik: usize,
    pub resync: ResyncMask,
}

impl Sizes {
    // The smallest size of each.
    pub const SMALLEST: Sizes = Sizes {
        rand: 16,
        sqn: 6,
        ak: 6,
        mac: 8,
        res: 4,
        ck: 16,
        ik: 16,
        resync: ResyncMask::F5Star,
    };
}

// A size set within its bounds, as an end holds it.
#[derive(Clone, Copy)]
pub struct Admitted {
    pub(crate) sizes: Sizes,
    ghost rand_low: { 16 ≤ sizes.rand },
    ghost rand_high: { sizes.rand ≤ 32 },
    ghost sqn_low: { 6 ≤ sizes.sqn },
    ghost sqn_high: { sizes.sqn ≤ 12 },
    ghost alike: { sizes.ak ≡ sizes.sqn },
    ghost mac_low: { 8 ≤ sizes.mac },
    ghost mac_high: { sizes.mac ≤ 32 },
    ghost res_low: { 4 ≤ sizes.res },
    ghost res_high: { sizes.res ≤ 32 },
    ghost ck_low: { 16 ≤ sizes.ck },
    ghost ck_high: { sizes.ck ≤ 32 },
    ghost ik_low: { 16 ≤ sizes.ik },
    ghost ik_high: { sizes.ik ≤ 32 },
}
