//! The table of the kinds of operator: what the language says of each, a row a kind.
ghost use Rattle.std.specs.Prelude.{◌≡◌, map};
ghost use Rattle.std.specs.List.{find};
ghost use Rattle.std.specs.Str.{bytes_eq};
ghost use Rattle.language_model.specs.Kinds.{kind_named, parameter_seen, rules_of};

use language_model::{
    KINDS, KindRules, OutputForm, ParameterRule, PortBounds, Presence, Role, WindowForm,
};
use spl_tree::OpKind;

const NONE: PortBounds = PortBounds { least: 0, most: 0 };

const ONE: PortBounds = PortBounds { least: 1, most: 1 };

const TWO: PortBounds = PortBounds { least: 2, most: 2 };

const ONE_TO_SIXTEEN: PortBounds = PortBounds { least: 1, most: 16 };

const UP_TO_SIXTEEN: PortBounds = PortBounds { least: 0, most: 16 };

const FILE: ParameterRule = ParameterRule {
    name: b"file",
    role: Role::File,
    presence: Presence::Required,
};

const FORMAT: ParameterRule = ParameterRule {
    name: b"format",
    role: Role::Format,
    presence: Presence::Optional,
};

const PARSING: ParameterRule = ParameterRule {
    name: b"parsing",
    role: Role::Parsing,
    presence: Presence::Optional,
};

const FILTER: ParameterRule = ParameterRule {
    name: b"filter",
    role: Role::Condition,
    presence: Presence::Optional,
};

const PUNCTUATION: ParameterRule = ParameterRule {
    name: b"punctuation",
    role: Role::Condition,
    presence: Presence::Required,
};

const POSITION: ParameterRule = ParameterRule {
    name: b"position",
    role: Role::Position,
    presence: Presence::Required,
};

const INDEX: ParameterRule = ParameterRule {
    name: b"index",
    role: Role::Index,
    presence: Presence::Required,
};

const PARTITION_BY: ParameterRule = ParameterRule {
    name: b"partitionBy",
    role: Role::Attributes,
    presence: Presence::WithPartitions,
};

const GROUP_BY: ParameterRule = ParameterRule {
    name: b"groupBy",
    role: Role::Attributes,
    presence: Presence::Optional,
};

const MATCH: ParameterRule = ParameterRule {
    name: b"match",
    role: Role::Condition,
    presence: Presence::Optional,
};

/// What the language says of the operators of a kind.
pub fn rules_of(kind: OpKind) -> KindRules
    ensures name { result.name.now ≡ (rules_of kind).name }
    ensures inputs { result.inputs ≡ (rules_of kind).inputs }
    ensures outputs { result.outputs ≡ (rules_of kind).outputs }
    ensures passes_on { result.passes_on ≡ (rules_of kind).passes_on }
    ensures parameters { map parameter_seen result.parameters.now ≡ (rules_of kind).parameters }
    ensures window { result.window ≡ (rules_of kind).window }
    ensures output { result.output ≡ (rules_of kind).output }
    ensures logic { result.logic ≡ (rules_of kind).logic }
{
    match kind {
        OpKind::FileSource => KindRules {
            name: b"FileSource",
            inputs: NONE,
            outputs: ONE,
            passes_on: false,
            parameters: &[FILE, FORMAT, PARSING],
            window: None,
            output: None,
            logic: false,
        },
        OpKind::FileSink => KindRules {
            name: b"FileSink",
            inputs: ONE,
            outputs: NONE,
            passes_on: false,
            parameters: &[FILE, FORMAT],
            window: None,
            output: None,
            logic: false,
        },
        OpKind::Filter => KindRules {
            name: b"Filter",
            inputs: ONE,
            outputs: ONE,
            passes_on: true,
            parameters: &[FILTER],
            window: None,
            output: None,
            logic: false,
        },
        OpKind::Functor => KindRules {
            name: b"Functor",
            inputs: ONE,
            outputs: ONE,
            passes_on: false,
            parameters: &[FILTER],
            window: None,
            output: Some(OutputForm::Tuple),
            logic: false,
        },
        OpKind::Punctor => KindRules {
            name: b"Punctor",
            inputs: ONE,
            outputs: ONE,
            passes_on: true,
            parameters: &[PUNCTUATION, POSITION],
            window: None,
            output: None,
            logic: false,
        },
        OpKind::Split => KindRules {
            name: b"Split",
            inputs: ONE,
            outputs: ONE_TO_SIXTEEN,
            passes_on: true,
            parameters: &[INDEX],
            window: None,
            output: None,
            logic: false,
        },
        OpKind::Union => KindRules {
            name: b"Union",
            inputs: ONE_TO_SIXTEEN,
            outputs: ONE,
            passes_on: false,
            parameters: &[],
            window: None,
            output: None,
            logic: false,
        },
        OpKind::Custom => KindRules {
            name: b"Custom",
            inputs: ONE_TO_SIXTEEN,
            outputs: UP_TO_SIXTEEN,
            passes_on: false,
            parameters: &[],
            window: None,
            output: None,
            logic: true,
        },
        OpKind::Aggregate => KindRules {
            name: b"Aggregate",
            inputs: ONE,
            outputs: ONE,
            passes_on: false,
            parameters: &[PARTITION_BY, GROUP_BY],
            window: Some(WindowForm::Aggregate),
            output: Some(OutputForm::Groups),
            logic: false,
        },
        OpKind::Join => KindRules {
            name: b"Join",
            inputs: TWO,
            outputs: ONE,
            passes_on: false,
            parameters: &[MATCH],
            window: Some(WindowForm::Join),
            output: Some(OutputForm::Tuple),
            logic: false,
        },
    }
}

/// The kind of operator of this name.
pub fn kind_named(name: &[u8]) -> Option<OpKind>
    ensures { result ≡ kind_named name.now }
{
    find_kind(&KINDS, name)
}

fn find_kind(kinds: &[OpKind], name: &[u8]) -> Option<OpKind>
    ensures { result ≡ find (λ kind. bytes_eq (rules_of kind).name name.now) kinds.now }
{
    for kind in kinds {
        if rules_of(*kind).name == name {
            return Some(*kind);
        }
    }
    None
}
