//! The values of the parameters that a signature block and a certificate block share.
ghost use Rattle.std.specs.Prelude.{◌≡◌, ◌≤◌, Some, None, if◌then◌else◌, is_some, IfOk};
ghost use Rattle.ss_message.specs.Layout.{element_value};
ghost use Rattle.ss_block.specs.declared.block_parameter.BlockParameter.TheVariants as kinds;
ghost use Rattle.ss_block.specs.declared.spoil.Spoil.TheVariants as spoils;
ghost use Rattle.ss_octets.specs.Number.{number, is_number};
ghost use Rattle.ss_octets.specs.StrictBase64.{octets_in};
ghost use Rattle.ss_block.specs.Reading.{text_of, or_none};
ghost use Rattle.ss_block.specs.Meanings.{HasAll};
ghost use Rattle.ss_block.specs.Causes.{Tests};
ghost use Rattle.ss_block.specs.Versions.{is_version, alg_of};

use crate::block_parameter::BlockParameter;
use crate::hash::Alg;
use crate::ranges::NumberRange;
use crate::refusal::Refusal;
use crate::spoil::Spoil;
use crate::texts::text_of;
use ss_message::Element;
use ss_octets::strict_base64::decoded;
use ss_octets::{Bytes, number_of};
use std::alloc::Global;

/// VER's hash algorithm (RFC 5848, section 4.2.1).
pub fn version(alloc: Global, source: &[u8], element: &Element) -> Result<Alg, Refusal>
    requires { HasAll source.now element.now }
    ensures { Tests spoils.Version (is_version (text_of (element_value source.now element.now) kinds.Ver))
        (λ alg. alg ≡ alg_of (text_of (element_value source.now element.now) kinds.Ver)) result }
{
    let text = text_of(alloc, source, element, BlockParameter::Ver)?;
    Ok(Alg::of_version(text.as_slice()).ok_or(Spoil::Version)?)
}

/// The number in this range that this parameter spells.
pub fn number_at(
    alloc: Global,
    source: &[u8],
    element: &Element,
    parameter: BlockParameter,
    range: NumberRange,
) -> Result<u64, Refusal>
    requires { HasAll source.now element.now }
    ensures value { Tests spoils.Number
        (is_number range.least range.most (text_of (element_value source.now element.now) parameter))
        (λ n. n ≡ number (text_of (element_value source.now element.now) parameter)) result }
    ensures bound { IfOk result (λ n. (range.least ≤ n) × (n ≤ range.most)) }
{
    let text = text_of(alloc, source, element, parameter)?;
    Ok(number_of(range.least, range.most, text.as_slice()).ok_or(Spoil::Number)?)
}

/// The octets of SIGN (RFC 5848, section 4.2.8).
pub fn sign(alloc: Global, source: &[u8], element: &Element) -> Result<Bytes, Refusal>
    requires { HasAll source.now element.now }
    ensures { Tests spoils.Sign (is_some (octets_in (text_of (element_value source.now element.now) kinds.Sign)))
        (λ octets. octets ≡ or_none (octets_in (text_of (element_value source.now element.now) kinds.Sign))) result }
{
    let text = text_of(alloc, source, element, BlockParameter::Sign)?;
    Ok(decoded(alloc, text.as_slice())?.ok_or(Spoil::Sign)?)
}
