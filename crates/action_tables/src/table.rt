// What a table's macro calls back.

/// The [`CaseSet`](crate::CaseSet) of the rows whose guards hold.
///
/// Called back by a table's macro with its rows. No guard is skipped, whatever the others give.
#[macro_export]
macro_rules! enabled_cases {
    (() $($number:literal $name:literal | $asks:literal | $effects:literal : $guard:expr => $effect:expr;)*) => {
        $crate::CaseSet::empty()$(.with_if($number, $guard))*
    };
}

/// What firing one row does: its effect where its guard holds, and else the refusal.
///
/// Called back by a table's macro with its rows. In the brackets stand the row's number, the
/// refusal of a number that no row has, and that of a row whose guard doesn't hold.
#[macro_export]
macro_rules! fire_case {
    (($case:expr, $no_such_case:expr, $not_enabled:expr)
        $($number:literal $name:literal | $asks:literal | $effects:literal : $guard:expr => $effect:expr;)*) => {
        match $case {
            $($number => {
                if $guard {
                    $effect
                } else {
                    Err($not_enabled)
                }
            })*
            _ => Err($no_such_case),
        }
    };
}

/// The rows as they are printed, an array of [`CaseRow`](crate::CaseRow).
///
/// Called back by a table's macro with its rows.
#[macro_export]
macro_rules! case_rows {
    (() $($number:literal $name:literal | $asks:literal | $effects:literal : $guard:expr => $effect:expr;)*) => {
        [$($crate::CaseRow {
            number: $number,
            name: $name,
            guard: $asks,
            effect: $effects,
        }),*]
    };
}
