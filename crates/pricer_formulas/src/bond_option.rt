// bond_option: the option on one coupon's bond, at its intrinsic value where it hardly moves.
ghost use Rattle.std.specs.Prelude.{◌≡◌};
ghost use Rattle.math_normal.specs.NormCdf.{norm_cdf_dual_of};
ghost use Rattle.pricer_formulas.specs.BondOption.{intrinsic_of, floored_at_zero_of, pricer_d1_of, moving_of, pricer_bond_option_of};

#[derive(Clone, Copy)]
pub enum SwaptionType {
    Payer,
    Receiver,
}

fn intrinsic(option: SwaptionType, strike_value: f64, bond_df: f64) -> f64
    ensures { result ≡ intrinsic_of option strike_value bond_df }
{
    match option {
        SwaptionType::Payer => strike_value - bond_df,
        SwaptionType::Receiver => bond_df - strike_value,
    }
}

// A value above 0, else 0.
fn floored_at_zero(value: f64) -> f64
    ensures { result ≡ floored_at_zero_of value }
{
    if value > 0.0 { value } else { 0.0 }
}

fn pricer_d1(volatility: f64, strike_value: f64, bond_df: f64) -> f64
    ensures { result ≡ pricer_d1_of volatility strike_value bond_df }
{
    (math_elementary::ln(bond_df / strike_value) + volatility * volatility * 0.5) / volatility
}

// The DualFwd normal function, which is not that of plain f64.
fn pricer_norm_cdf(x: f64) -> f64
    ensures { result ≡ norm_cdf_dual_of x }
{
    math_normal::norm_cdf_dual(x)
}

// The option where the bond moves.
fn moving(option: SwaptionType, volatility: f64, strike_value: f64, bond_df: f64) -> f64
    ensures { result ≡ moving_of option volatility strike_value bond_df }
{
    let d1 = pricer_d1(volatility, strike_value, bond_df);
    let d2 = d1 - volatility;
    match option {
        SwaptionType::Payer => strike_value * pricer_norm_cdf(-d2) - bond_df * pricer_norm_cdf(-d1),
        SwaptionType::Receiver => bond_df * pricer_norm_cdf(d1)
            - strike_value * pricer_norm_cdf(d2),
    }
}

pub fn bond_option(
    option: SwaptionType,
    volatility: f64,
    strike: f64,
    option_df: f64,
    bond_df: f64,
) -> f64
    ensures { result ≡ pricer_bond_option_of option volatility strike option_df bond_df }
{
    let strike_value = strike * option_df;
    if volatility <= 1e-12 {
        floored_at_zero(intrinsic(option, strike_value, bond_df))
    } else {
        moving(option, volatility, strike_value, bond_df)
    }
}
