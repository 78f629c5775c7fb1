//! The rules, and the checked modules of texts in which they hold. docs/LANGUAGE.md, "Which failure is named", states the stages in
//! which the rules are judged.
ghost use Rattle.std.specs.Prelude.{◌≡◌, map, IfErr, IfOk, Ok};
ghost use Rattle.th_meaning.specs.View.{module_of};
ghost use Rattle.th_type.specs.Ways.{WaysEnd};
ghost use Rattle.th_module_rules.specs.Stages.{NothingFails, RulesHold, hierarchy_in};
ghost use Rattle.th_module_rules.specs.Texts.{HasNames};
ghost use Rattle.th_program.specs.Programs.{Ascending, IsPaired, program_of};
ghost use Rattle.th_outlines.specs.Stages.{IsAnswer, outline_stages};
ghost use Rattle.th_checked.specs.Checked.{AreChecked};
ghost use Rattle.th_accept.specs.declared.refusal.Refusal.TheVariants.{Memory};
ghost use Rattle.th_accept.specs.Stages.{FailsIn, IsJudged, rule_refusal};

use crate::refusal::Refusal;
use std::alloc::Global;
use th_bodies::{Bodies, judge_bodies};
use th_checked::core_modules;
use th_hier::Hierarchy;
use th_meaning::CoreModule;
use th_outlines::judge_outlines;
use th_program::{RuleError, Trees};
use th_tree::Tokens;

/// What is known of texts in which every rule holds.
#[derive(Drop)]
struct Judged {
    hierarchy: Hierarchy,
    bodies: Bodies,
}

/// The refusal of texts in which a rule fails.
fn refusal_of(error: RuleError) -> Refusal
    ensures { result ≡ rule_refusal error }
{
    match error {
        RuleError::Rule(failure) => Refusal::Rule {
            number: failure.rule,
            place: failure.place,
        },
        RuleError::Memory => Refusal::Memory,
    }
}

/// The same with this hierarchy, where no rule fails outside bodies, initializers and definitions.
#[tactic(auto, using(crate::proofs::Judging::bodies_fail, crate::proofs::Judging::rules_hold, crate::proofs::Judging::third_holds))]
fn judge_with(alloc: Global, trees: &mut Trees, hierarchy: Hierarchy) -> Result<Judged, RuleError>
    requires paired { IsPaired trees.old }
    requires named { HasNames (program_of trees.old) }
    requires hierarchy { hierarchy ≡ hierarchy_in (program_of trees.old) }
    requires ends { WaysEnd hierarchy.types }
    requires outlines { NothingFails (outline_stages (program_of trees.old)) }
    ensures answer { IsJudged (program_of trees.old) result }
    ensures trees { program_of trees.new ≡ program_of trees.old }
    ensures paired { IsPaired trees.new }
{
    match judge_bodies(alloc, trees, &hierarchy) {
        Ok(bodies) => Ok(Judged { hierarchy, bodies }),
        Err(error) => Err(error),
    }
}

/// The hierarchy of the interfaces, where no rule fails outside bodies, initializers and definitions.
fn judge_trees(alloc: Global, trees: &mut Trees) -> Result<Hierarchy, RuleError>
    requires paired { IsPaired trees.old }
    requires ascending { Ascending trees.old.interface_texts.items }
    requires named { HasNames (program_of trees.old) }
    ensures answer { IsAnswer (program_of trees.old) (outline_stages (program_of trees.old)) result }
    ensures trees { IfOk result (λ _. program_of trees.new ≡ program_of trees.old) }
    ensures paired { IsPaired trees.new }
    ensures ends { IfOk result (λ h. WaysEnd h.types) }
{
    judge_outlines(
        alloc,
        &mut trees.names,
        &trees.interface_texts,
        &trees.interfaces,
        &trees.module_texts,
        &trees.modules,
    )
}

/// The hierarchy of the interfaces and the checked units of the modules, where every rule holds, or the failure that is named.
#[tactic(auto, using(crate::proofs::Judging::outlines_fail))]
fn judge_rules(alloc: Global, trees: &mut Trees) -> Result<Judged, RuleError>
    requires paired { IsPaired trees.old }
    requires ascending { Ascending trees.old.interface_texts.items }
    requires named { HasNames (program_of trees.old) }
    ensures answer { IsJudged (program_of trees.old) result }
    ensures trees { IfOk result (λ _. program_of trees.new ≡ program_of trees.old) }
    ensures paired { IsPaired trees.new }
{
    match judge_trees(alloc, trees) {
        Ok(hierarchy) => judge_with(alloc, trees, hierarchy),
        Err(error) => Err(error),
    }
}

/// The checked modules of texts with these tokens and trees, of which that is known.
#[tactic(auto, using(crate::proofs::Judging::first_holds))]
fn modules_of(
    alloc: Global,
    tokens: &[Tokens<'_>],
    trees: &mut Trees,
    judged: Judged,
) -> Result<Vec<CoreModule>, Refusal>
    requires paired { IsPaired trees.old }
    requires judged { IsJudged (program_of trees.old) (Ok judged) }
    ensures checked { IfOk result (λ r. AreChecked (program_of trees.old) tokens.now (program_of trees.old).modules (map module_of r.items)) }
    ensures trees { IfOk result (λ _. program_of trees.new ≡ program_of trees.old) }
    ensures memory { IfErr result (λ e. e ≡ Memory) }
{
    let Judged { hierarchy, bodies } = judged;
    match core_modules(alloc, tokens, trees, &hierarchy, bodies) {
        Ok(modules) => Ok(modules),
        Err(_) => Err(Refusal::Memory),
    }
}

/// The checked modules of texts with these tokens and trees, in the order of the texts, where every rule holds.
#[tactic(auto, using(crate::proofs::Judging::judged_fails))]
pub fn check_rules(
    alloc: Global,
    tokens: &[Tokens<'_>],
    trees: &mut Trees,
) -> Result<Vec<CoreModule>, Refusal>
    requires paired { IsPaired trees.old }
    requires ascending { Ascending trees.old.interface_texts.items }
    requires named { HasNames (program_of trees.old) }
    ensures rules { IfOk result (λ _. RulesHold (program_of trees.old)) }
    ensures checked { IfOk result (λ r. AreChecked (program_of trees.old) tokens.now (program_of trees.old).modules (map module_of r.items)) }
    ensures trees { IfOk result (λ _. program_of trees.new ≡ program_of trees.old) }
    ensures failed { IfErr result (FailsIn (program_of trees.old)) }
{
    match judge_rules(alloc, trees) {
        Ok(judged) => modules_of(alloc, tokens, trees, judged),
        Err(error) => Err(refusal_of(error)),
    }
}
