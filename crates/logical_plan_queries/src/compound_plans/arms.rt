//! A plan for each SELECT of a compound.
ghost use Rattle.std.specs.Prelude.{IfOk, MatchOption};
ghost use Rattle.resolver_bodies.specs.BodyView.{body_of, tables_of};
ghost use Rattle.logical_plan_queries.specs.compound_plans.Arms.{AreServed, IsArmFor, IsServedArm};
ghost use Rattle.logical_plan.specs.answers.Arms.{arm_data, arms_data};
ghost use Rattle.logical_plan.specs.answers.Permitted.{AreArmsOf};
ghost use Rattle.resolver_terms.specs.SelectView.{select_of};

use crate::select_plans::base_of;
use logical_plan::{Arm, Arms};
use logical_plan_terms::input_of;
use resolver_bodies::{Body, Tables};
use resolver_terms::Select;
use std::alloc::{AllocError, Global};

/// What is run for one of the SELECTs. There is nothing where it stands on something else than joined tables, or behind groups or
/// windows names something else than the values of the rows that it is computed on. (SELECT)
fn arm_of(alloc: Global, tables: &Tables, select: &Select) -> Result<Option<Arm>, AllocError>
    ensures { IfOk result (λ arm. MatchOption arm (¬ IsServedArm (tables_of tables.now) (select_of select.now))
        (λ arm. IsArmFor (tables_of tables.now) (select_of select.now) (arm_data arm))) }
{
    let served = input_of(alloc, tables)?;
    let input = match served {
        None => return Ok(None),
        Some(input) => input,
    };
    let found = base_of(alloc, &input, select, &[])?;
    let base = match found {
        None => return Ok(None),
        Some(base) => base,
    };
    Ok(Some(Arm {
        plan: base.plan,
        columns: base.columns,
        distinct: select.distinct,
    }))
}

/// What is run for the SELECTs that a query joins from left to right, or for its one SELECT. There is nothing where one of them isn't
/// served. (SELECT, "Compound Select Statements")
pub fn arms_of(alloc: Global, body: &Body) -> Result<Option<Arms>, AllocError>
    ensures { IfOk result (λ arms. MatchOption arms (¬ AreServed (body_of body.now)) (λ arms. AreArmsOf IsArmFor (body_of body.now) (arms_data arms))) }
{
    match body {
        Body::Select(single) => match arm_of(alloc, &single.tables, &single.select)? {
            None => Ok(None),
            Some(arm) => Ok(Some(Arms::One(arm))),
        },
        Body::Compound(before, operator, single) => {
            let left = match arms_of(alloc, before)? {
                None => return Ok(None),
                Some(left) => left,
            };
            let arm = match arm_of(alloc, &single.tables, &single.select)? {
                None => return Ok(None),
                Some(arm) => arm,
            };
            Ok(Some(Arms::Joined(Box::new(alloc, left)?, *operator, arm)))
        }
    }
}
