//! The parameters of a function.

ghost use Rattle.std.specs.Prelude.{◌≡◌, OnOk, map};
ghost use Rattle.std.specs.String.{string_bytes};
ghost use Rattle.pytree_dump_text.specs.Shows.{Row, shown_arg, shown_arguments, showns};
ghost use Rattle.pytree_node.specs.TreeOf.{arg_of, arguments_of};
ghost use Rattle.pytree_marked.specs.Appends.{Appends};

use crate::nodes::AnyPart;
use crate::showing::show_any_field;
use pytree_dump_text::{
    Field, Part, Style, Told, after_left_out, arg_part, boxed_part, close, is_flat, is_short_three,
    open, push_before,
};
use pytree_marked::{PlaceSource, end_node, is_told_on_line};
use pytree_node::{Arg, Arguments};
use std::alloc::AllocError;

/// Appends a parameter. It has no type comment.
#[cycle(showing)]
#[tactic(auto, using(crate::proofs::TextLemmas::left, crate::proofs::TextLemmas::may_close))]
pub(crate) fn show_arg<P: PlaceSource>(
    out: &mut String,
    indentation: &mut String,
    style: Style,
    a: &Arg,
    places: &mut P,
) -> Result<(), AllocError>
    ensures text { OnOk result (Appends style (string_bytes indentation.old)
        (string_bytes out.old) (string_bytes out.new) (P.left places.old) (P.left places.new)
        (shown_arg (arg_of a.now))) }
    ensures indentation { OnOk result (string_bytes indentation.new ≡ string_bytes indentation.old) }
{
    let name = Part::Name(Field::Arg, &a.arg);
    let annotation = boxed_part(Field::Annotation, &a.annotation);
    let told = Told {
        one_line: is_told_on_line(
            style,
            is_short_three(style, name, annotation, Part::LeftOut),
            places,
        ),
        named: style.names,
        first: true,
    };
    let outer = open(out, indentation, style, "arg(")?;
    let told = show_any_field(out, indentation, style, told, AnyPart::Part(name), places)?;
    let told = show_any_field(
        out,
        indentation,
        style,
        told,
        AnyPart::Part(annotation),
        places,
    )?;
    let told = after_left_out(told);
    end_node(out, indentation, style, told, outer, places)?;
    Ok(())
}

/// Appends a list of parameters.
#[cycle(showing)]
#[tactic(auto, using(crate::proofs::TextLemmas::left, crate::proofs::TextLemmas::may_close))]
pub(crate) fn show_args<P: PlaceSource>(
    out: &mut String,
    indentation: &mut String,
    style: Style,
    all: &[Arg],
    places: &mut P,
) -> Result<(), AllocError>
    ensures text { OnOk result (Appends style (string_bytes indentation.old)
        (string_bytes out.old) (string_bytes out.new) (P.left places.old) (P.left places.new)
        (Row (showns (map (λ a. shown_arg (arg_of a)) all.now)))) }
    ensures indentation { OnOk result (string_bytes indentation.new ≡ string_bytes indentation.old) }
{
    // At once, as many lists are.
    if all.is_empty() {
        return out.push_str("[]");
    }
    let outer = open(out, indentation, style, "[")?;
    let mut first = true;
    for a in all {
        push_before(out, indentation.as_str(), is_flat(style), first)?;
        show_arg(out, indentation, style, a, places)?;
        first = false;
    }
    close(out, indentation, style, outer, "]")?;
    Ok(())
}

/// Appends the parameters of a function, which have no place and show five fields or more.
#[cycle(showing)]
#[tactic(auto, using(crate::proofs::TextLemmas::left, crate::proofs::TextLemmas::may_close))]
pub(crate) fn show_arguments<P: PlaceSource>(
    out: &mut String,
    indentation: &mut String,
    style: Style,
    a: &Arguments,
    places: &mut P,
) -> Result<(), AllocError>
    ensures text { OnOk result (Appends style (string_bytes indentation.old)
        (string_bytes out.old) (string_bytes out.new) (P.left places.old) (P.left places.new)
        (shown_arguments (arguments_of a.now))) }
    ensures indentation { OnOk result (string_bytes indentation.new ≡ string_bytes indentation.old) }
{
    let posonlyargs = AnyPart::Part(Part::Args(Field::Posonlyargs, &a.posonlyargs));
    let args = AnyPart::Part(Part::Args(Field::Args, &a.args));
    let vararg = AnyPart::Part(arg_part(Field::Vararg, &a.vararg));
    let kwonlyargs = AnyPart::Part(Part::Args(Field::Kwonlyargs, &a.kwonlyargs));
    let kw_defaults = AnyPart::Part(Part::Options(Field::KwDefaults, &a.kw_defaults));
    let kwarg = AnyPart::Part(arg_part(Field::Kwarg, &a.kwarg));
    let defaults = AnyPart::Part(Part::Exprs(Field::Defaults, &a.defaults));
    let told = Told {
        one_line: is_flat(style),
        named: style.names,
        first: true,
    };
    let outer = open(out, indentation, style, "arguments(")?;
    let told = show_any_field(out, indentation, style, told, posonlyargs, places)?;
    let told = show_any_field(out, indentation, style, told, args, places)?;
    let told = show_any_field(out, indentation, style, told, vararg, places)?;
    let told = show_any_field(out, indentation, style, told, kwonlyargs, places)?;
    let told = show_any_field(out, indentation, style, told, kw_defaults, places)?;
    let told = show_any_field(out, indentation, style, told, kwarg, places)?;
    show_any_field(out, indentation, style, told, defaults, places)?;
    close(out, indentation, style, outer, ")")?;
    Ok(())
}
