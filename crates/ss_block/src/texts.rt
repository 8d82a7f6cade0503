//! The parameters of a block element: their names, and what their values stand for.
ghost use Rattle.std.specs.Prelude.{◌≡◌, ◌<◌, length, IfOk};
ghost use Rattle.std.specs.List.{All};
ghost use Rattle.std.specs.Str.{bytes_eq};
ghost use Rattle.ss_message.specs.Octets.{part_of};
ghost use Rattle.ss_message.specs.Raw.{meant};
ghost use Rattle.ss_message.specs.Layout.{element_value};
ghost use Rattle.ss_message.specs.Places.{ParameterIsWithin, ElementIsWithin};
ghost use Rattle.ss_block.specs.Meanings.{octets_of, are_named};
ghost use Rattle.ss_block.specs.Meanings.{HasAll};
ghost use Rattle.ss_block.specs.Parameters.{names_in};
ghost use Rattle.ss_block.specs.Reading.{has_parameters, text_at, text_of};

use crate::block_parameter::BlockParameter;
use crate::copies::copy_of;
use ss_message::{Element, Parameter, value};
use ss_octets::{Bytes, NoMemory};
use std::alloc::Global;

/// What the value of a parameter stands for (RFC 5424, section 6.3.3).
#[derive(Debug, Drop)]
pub enum Meant<'a> {
    /// The value as it stands, where no `\` stands in it.
    Raw(&'a [u8]),
    /// The octets of a value with its escapes taken off.
    Unescaped(Bytes),
}

impl<'a> Meant<'a> {
    /// The octets that the value stands for.
    pub fn as_slice(&self) -> &[u8]
        ensures { result.now ≡ octets_of self.now }
    {
        match self {
            Meant::Raw(octets) => octets,
            Meant::Unescaped(octets) => octets.as_slice(),
        }
    }

    /// The same octets, in memory of their own.
    ///
    /// Errs only where memory runs out, which is taken only where they are borrowed.
    pub fn into_bytes(self, alloc: Global) -> Result<Bytes, NoMemory>
        ensures { IfOk result (λ b. b ≡ octets_of self.entry) }
    {
        match self {
            Meant::Raw(octets) => copy_of(alloc, octets),
            Meant::Unescaped(octets) => Ok(octets),
        }
    }
}

/// What the value of a parameter stands for, as `raw` stands in a message. Where no `\` stands there, the answer borrows
/// `raw`.
///
/// Errs only where memory runs out, which is taken only where a `\` stands there.
pub fn meaning<'a>(alloc: Global, raw: &'a [u8]) -> Result<Meant<'a>, NoMemory>
    ensures { IfOk result (λ m. octets_of m ≡ meant raw.now) }
{
    if !raw.contains(&b'\\') {
        return Ok(Meant::Raw(raw));
    }
    Ok(Meant::Unescaped(value(alloc, raw)?))
}

/// Whether the parameter has this name.
fn is_named(source: &[u8], parameter: &Parameter, name: &[u8]) -> bool
    requires { ParameterIsWithin source.now parameter.now }
    ensures { result ≡ bytes_eq (part_of source.now parameter.now.name) name.now }
{
    parameter.name.of(source) == name
}

/// Whether the parameters have these names, in this order, and there are no others.
fn are_named(source: &[u8], parameters: &[Parameter], names: &[BlockParameter]) -> bool
    requires { All (ParameterIsWithin source.now) parameters.now }
    ensures { result ≡ are_named source.now parameters.now names.now }
{
    if parameters.len() != names.len() {
        return false;
    }
    for (i, parameter) in parameters.iter().enumerate() {
        if !is_named(source, parameter, names[i].name()) {
            return false;
        }
    }
    true
}

/// Whether the element's parameters are these, in this order, and no others.
pub fn has_parameters(source: &[u8], element: &Element, names: &[BlockParameter]) -> bool
    requires { ElementIsWithin source.now element.now }
    ensures { result ≡ has_parameters (names_in names.now) (element_value source.now element.now) }
{
    are_named(source, element.parameters.as_slice(), names)
}

/// What the value of parameter number `i`, from 0, stands for.
fn text_at<'a>(
    alloc: Global,
    source: &'a [u8],
    element: &Element,
    i: usize,
) -> Result<Meant<'a>, NoMemory>
    requires within { ElementIsWithin source.now element.now }
    requires place { i < length element.now.parameters }
    ensures { IfOk result (λ m. octets_of m ≡ text_at (element_value source.now element.now) i) }
{
    let parameter = element.parameters.as_slice()[i];
    meaning(alloc, parameter.value.of(source))
}

/// What the value of this parameter stands for, in an element that has as many as its block.
pub fn text_of<'a>(
    alloc: Global,
    source: &'a [u8],
    element: &Element,
    parameter: BlockParameter,
) -> Result<Meant<'a>, NoMemory>
    requires { HasAll source.now element.now }
    ensures { IfOk result (λ m. octets_of m ≡ text_of (element_value source.now element.now) parameter) }
{
    text_at(alloc, source, element, parameter.place())
}
