//! What a query answers, as a planner says it and an executor computes it: SELECTs that operators combine,
//! each the result columns over the rows of a plan, each row once or not; ORDER BY, LIMIT and OFFSET. Over
//! plans of the rows on which the SELECTs compute their result columns it is a list that the query permits.

use crate::Plan;
use expr::Expr;
use sql_reader_syntax::CompoundOperator;
use windows_groups::ResultKey;

/// What one SELECT computes of the rows of a plan. (SELECT)
#[derive(Drop)]
pub struct Arm {
    pub plan: Plan,
    /// The result columns, over the rows of the plan.
    pub columns: Vec<Expr>,
    /// Whether it is a SELECT DISTINCT.
    pub distinct: bool,
}

/// SELECTs that are joined from left to right. (SELECT, "Compound Select Statements")
#[derive(Drop)]
pub enum Arms {
    /// One SELECT.
    One(Arm),
    /// SELECTs, an operator, and the SELECT on its right.
    Joined(Box<Arms>, CompoundOperator, Arm),
}

/// What ORDER BY puts rows in order by. (SELECT, "The ORDER BY clause")
#[derive(Drop)]
pub struct Order {
    /// Where rows have the values of its terms.
    pub keys: Vec<ResultKey>,
    /// How many values at the end of each row aren't shown: those of terms that are no result columns.
    pub hidden: usize,
}

/// What a query answers: rows of SELECTs, in order or as they come, and of these those that LIMIT and OFFSET leave. (SELECT)
#[derive(Drop)]
pub struct Answer {
    pub arms: Arms,
    pub order: Option<Order>,
    pub limit: Option<i64>,
    pub offset: i64,
}
