// A swaption's value: its components, a bond option a coupon, and their sum.
ghost use Rattle.std.specs.Prelude.{◌≡◌, not, length};
ghost use Rattle.refusals.specs.declared.checks.Test.TheVariants.{Zero};
ghost use Rattle.refusals.specs.Checks.{all_of};
ghost use Rattle.pricer_formulas.specs.Components.{component_of, discounted_of, components_of};

use super::bond_option::SwaptionType;
use super::{bond_option, newton};
use refusals::Test;

// A component under its own discount factor, where the coupons have one.
fn discounted(own: bool, component: f64, own_df: f64, forward_df: f64) -> f64
    ensures { result ≡ discounted_of own component own_df forward_df }
{
    if own {
        component * own_df / forward_df
    } else {
        component
    }
}

// What the bond options of a swaption have in common: payer or receiver, the state's deviation, the factor
// at the option time, and the rate that strikes each of them.
#[derive(Clone, Copy)]
pub struct Decomposition {
    pub option: SwaptionType,
    pub deviation: f64,
    pub p_t: f64,
    pub rate: f64,
}

fn component(common: Decomposition, a: f64, b: f64, p: f64) -> f64
    ensures { result ≡ component_of common.option common.deviation common.p_t common.rate a b p }
{
    let option = common.option;
    let strike = newton::bond_at(common.rate, a, b);
    bond_option::bond_option(option, common.deviation * b, strike, common.p_t, p)
}

// The components, each times its coefficient. The coupons have discount factors of their own unless all are 0.
// A caller that has worked the terms has an A, a B, a factor and an own one for each coefficient.
pub fn components(
    common: Decomposition,
    c: &[f64],
    a: &[f64],
    b: &[f64],
    p: &[f64],
    own_dfs: &[f64],
) -> f64
    requires { (length a.now ≡ length c.now) × (length b.now ≡ length c.now) × (length p.now ≡ length c.now) × (length own_dfs.now ≡ length c.now) }
    ensures { result ≡ components_of common.option (not (all_of Zero own_dfs.now)) common.deviation common.p_t common.rate c.now a.now b.now p.now own_dfs.now }
{
    let own = !refusals::all(own_dfs, Test::Zero);
    let mut value = 0.0;
    for i in 0..c.len() {
        let plain = component(common, a[i], b[i], p[i]);
        let due = discounted(own, plain, own_dfs[i], p[i]);
        value = value + due * c[i];
    }
    value
}
