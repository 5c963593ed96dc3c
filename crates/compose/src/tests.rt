use crate::pair::Pair;
use crate::renamed::Renamed;
use onestate::OneState;
use table::Table;
use wiring::Wiring;

#[test]
fn answers_as_three_tables_with_named_atoms(rt: HostRuntime) {
    let Ok(wiring) = Wiring::read(&[0, 7]) else {
        assert!(rt; false);
        return;
    };
    let two = Pair::new(OneState, OneState);
    let table = Renamed::new(Pair::new(two, OneState), wiring);
    assert_eq!(rt;
        (table.states(), table.atoms(), table.fairness_sets()),
        (1, 2, 3)
    );
    assert!(rt; table.is_start(0) && !table.is_start(1) && !table.in_atom(1, 0));
    assert!(rt; table.in_fairness_set(2, 0) && !table.in_fairness_set(3, 0));
    assert_eq!(rt;
        (table.move_count(0), table.target(0, 0), table.move_count(1)),
        (1, 0, 0)
    );
}

#[test]
fn is_one_state_past_the_limits(rt: HostRuntime) {
    let two = Pair::new(OneState, OneState);
    let four = Pair::new(two, Pair::new(OneState, OneState));
    assert!(rt; four.fits());
    assert_eq!(rt; four.fairness_sets(), 4);
    let five = Pair::new(four, OneState);
    assert!(rt; !five.fits());
    assert_eq!(rt; (five.states(), five.fairness_sets()), (1, 1));
}
