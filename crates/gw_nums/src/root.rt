ghost use Rattle.std.specs.Prelude.{◌≡◌, ◌≤◌, ◌<◌, ◌+◌, ◌*◌, ◌^◌};
ghost use Rattle.gw_nums.specs.Roots.{whole_root};

/// The whole square root: the greatest number whose square is at most n.
#[tactic(auto, using(crate::proofs::Roots::is_whole_root))]
pub fn whole_root(n: u128) -> u128
    ensures value { result ≡ whole_root n }
    ensures square { result * result ≤ n }
    ensures greatest { n < (result + 1) * (result + 1) }
    ensures bound { result < 2 ^ 64 }
{
    n.isqrt()
}
