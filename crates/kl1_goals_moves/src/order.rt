// Orders for new shoens.

ghost use Rattle.std.specs.Prelude.{◌≡◌, ℕ, ◌<◌, List, length};
ghost use Rattle.kl1_model.specs.Look.{number_of_term, callee_look, goal_look, priority_look, allowance_look, arguments_look};
ghost use Rattle.kl1_text.specs.Reading.{Reads};
ghost use Rattle.kl1_store.specs.Held.{IsIn, arguments_of};
ghost use Rattle.kl1_store.specs.Meaning.{term_of};
ghost use Rattle.kl1_goals_moves.specs.Shapes.{two_terms};
ghost use Rattle.kl1_goals_moves.specs.Looks.{look_of, LookIn, priority_by, allowance_by, callee_in, callee_outside, callee_by, number_by};
ghost use Rattle.kl1_goals_moves.specs.Orders.{order_at, IsOrderIn, IsOrder};

use crate::look::{Look, whole_of};
use crate::naming::is_built_in;
use crate::shape::{Shape, shape_of};
use crate::top::top_of;
use kl1_model::BuiltIn;
use kl1_model::limits::MOST_PRIORITY;
use kl1_store::{Cell, Store};
use kl1_text::NameValue;

/// What a new shoen is ordered by: its goal, the low and the high end of the range of its priorities, its allowance in reductions,
/// its control stream and its report stream.
#[derive(Clone, Copy)]
pub struct ExecuteArguments<N> {
    pub goal: Cell<N>,
    pub low: Cell<N>,
    pub high: Cell<N>,
    pub allowance: Cell<N>,
    pub control: Cell<N>,
    pub reports: Cell<N>,
}

/// The order that a structure of six arguments is.
pub fn order_at<N: NameValue>(store: &Store<N>, structure: u32) -> ExecuteArguments<N>
    requires structure { structure < length store.now.held.structures }
    requires six { length (arguments_of store.now.held structure) ≡ 6 }
    ensures inside { IsOrderIn store.now.held result }
    ensures order { IsOrder store.now.held structure result }
{
    // Only for the proof: what the store holds is formed.
    let _ = store.mark();
    ExecuteArguments {
        goal: store.argument(structure, 0),
        low: store.argument(structure, 1),
        high: store.argument(structure, 2),
        allowance: store.argument(structure, 3),
        control: store.argument(structure, 4),
        reports: store.argument(structure, 5),
    }
}

/// The look at a priority, by what stands at its top: an integer from 0 to 4,095.
fn priority_by<N: Copy>(top: Cell<N>) -> Look
    ensures { result ≡ priority_by top }
{
    match top {
        Cell::Variable(variable) => Look::Waits(variable),
        Cell::Integer(integer) => match whole_of(integer) {
            Some(number) => Look::right_if(number <= MOST_PRIORITY),
            None => Look::Wrong,
        },
        Cell::Atom(_) => Look::Wrong,
        Cell::Structure(_) => Look::Wrong,
    }
}

/// The look at an allowance, by what stands at its top: an integer from 0.
fn allowance_by<N: Copy>(top: Cell<N>) -> Look
    ensures { result ≡ allowance_by top }
{
    match top {
        Cell::Variable(variable) => Look::Waits(variable),
        Cell::Integer(integer) => match whole_of(integer) {
            Some(_) => Look::Right,
            None => Look::Wrong,
        },
        Cell::Atom(_) => Look::Wrong,
        Cell::Structure(_) => Look::Wrong,
    }
}

/// The number that a term is, by what stands at its top; 0 if it is no integer from 0.
fn number_by<N: Copy>(top: Cell<N>) -> u64
    ensures { result ≡ number_by top }
{
    match top {
        Cell::Variable(_) => 0,
        Cell::Integer(integer) => match whole_of(integer) {
            Some(number) => number,
            None => 0,
        },
        Cell::Atom(_) => 0,
        Cell::Structure(_) => 0,
    }
}

/// The number that a cell is; 0 if it is no integer from 0.
pub fn number_at<N: NameValue>(store: &Store<N>, cell: Cell<N>) -> u64
    requires { IsIn store.now.held cell }
    ensures { (f : N → List ℕ) → result ≡ number_of_term (term_of f store.now.held cell) }
{
    number_by(top_of(store, cell))
}

/// The look at a priority.
fn look_at_priority<N: NameValue>(store: &Store<N>, cell: Cell<N>) -> Look
    requires { IsIn store.now.held cell }
    ensures inside { LookIn store.now.held result }
    ensures look { (f : N → List ℕ) → look_of result ≡ priority_look (term_of f store.now.held cell) }
{
    priority_by(top_of(store, cell))
}

/// The look at an allowance.
fn look_at_allowance<N: NameValue>(store: &Store<N>, cell: Cell<N>) -> Look
    requires { IsIn store.now.held cell }
    ensures inside { LookIn store.now.held result }
    ensures look { (f : N → List ℕ) → look_of result ≡ allowance_look (term_of f store.now.held cell) }
{
    allowance_by(top_of(store, cell))
}

/// The look at what is called in the module of a name, by what stands at its top.
fn callee_in<N: Copy>(top: Cell<N>) -> Look
    ensures { result ≡ callee_in top }
{
    match top {
        Cell::Variable(variable) => Look::Waits(variable),
        Cell::Integer(_) => Look::Wrong,
        Cell::Atom(_) => Look::Right,
        Cell::Structure(_) => Look::Right,
    }
}

/// The look at what is called if there is no module, by what stands at its top.
fn callee_outside<N: Copy>(top: Cell<N>) -> Look
    ensures { result ≡ callee_outside top }
{
    match top {
        Cell::Variable(variable) => Look::Waits(variable),
        Cell::Integer(_) => Look::Wrong,
        Cell::Atom(_) => Look::Wrong,
        Cell::Structure(_) => Look::Wrong,
    }
}

/// The look at a module's name and what is called in it, by what stands at their tops.
fn callee_by<N: Copy>(left: Cell<N>, right: Cell<N>) -> Look
    ensures { result ≡ callee_by left right }
{
    match left {
        Cell::Variable(variable) => Look::Waits(variable),
        Cell::Integer(_) => callee_outside(right),
        Cell::Atom(_) => callee_in(right),
        Cell::Structure(_) => callee_outside(right),
    }
}

/// The look at a module's name and what is called in it.
fn look_at_callee<N: NameValue>(store: &Store<N>, left: Cell<N>, right: Cell<N>) -> Look
    requires left_in { IsIn store.now.held left }
    requires right_in { IsIn store.now.held right }
    ensures inside { LookIn store.now.held result }
    ensures look { (f : N → List ℕ) → look_of result ≡ callee_look (term_of f store.now.held left) (term_of f store.now.held right) }
{
    callee_by(top_of(store, left), top_of(store, right))
}

/// The look at the goal of a new shoen that is a structure of two arguments.
fn look_at_two<N: NameValue>(store: &Store<N>, name: N, left: Cell<N>, right: Cell<N>) -> Look
    requires left_in { IsIn store.now.held left }
    requires right_in { IsIn store.now.held right }
    ensures inside { LookIn store.now.held result }
    ensures look { (f : N → List ℕ) → Reads N.built f → look_of result ≡ goal_look (two_terms f store.now.held name left right) }
{
    if is_built_in(name, BuiltIn::Colon) {
        return look_at_callee(store, left, right);
    }
    let unifies = is_built_in(name, BuiltIn::Equal);
    let assigns = is_built_in(name, BuiltIn::Assign);
    let spells = is_built_in(name, BuiltIn::AtomFrom);
    Look::right_if(unifies || assigns || spells)
}

/// The look at the goal of a new shoen, and at what a substitute waits for. The variable of one that waits is unbound.
pub(crate) fn look_at_goal<N: NameValue>(store: &Store<N>, goal: Cell<N>) -> Look
    requires { IsIn store.now.held goal }
    ensures inside { LookIn store.now.held result }
    ensures look { (f : N → List ℕ) → Reads N.built f → look_of result ≡ goal_look (term_of f store.now.held goal) }
{
    match shape_of(store, goal) {
        Shape::Variable(variable) => Look::Waits(variable),
        Shape::Atom(name) => Look::right_if(is_built_in(name, BuiltIn::True)),
        Shape::Two(name, left, right) => look_at_two(store, name, left, right),
        Shape::Other => Look::Wrong,
    }
}

/// The look at an order for a new shoen: its goal, the ends of its range and its allowance in this order, and then that the low end
/// isn't over the high one. The variable of one that waits is unbound.
pub fn look_at_order<N: NameValue>(store: &Store<N>, order: ExecuteArguments<N>) -> Look
    requires { IsOrderIn store.now.held order }
    ensures inside { LookIn store.now.held result }
    ensures look { (f : N → List ℕ) → Reads N.built f → look_of result ≡ arguments_look (order_at f store.now.held order) }
{
    let goal = look_at_goal(store, order.goal);
    let low = look_at_priority(store, order.low);
    let high = look_at_priority(store, order.high);
    let allowance = look_at_allowance(store, order.allowance);
    let least = number_at(store, order.low);
    let most = number_at(store, order.high);
    let range = Look::right_if(least <= most);
    goal.then(low.then(high.then(allowance.then(range))))
}
