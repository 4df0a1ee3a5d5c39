// The choice of an application by its name.

/// Calls a function with the application of a name as its first type, `P`:
/// `with_application!(network.app, P => run_booted::<P, W>(alloc, network, out))`.
#[macro_export]
macro_rules! with_application {
    ($name:expr, P => $function:ident::<P $(, $type:ident)*>($($argument:expr),* $(,)?)) => {
        match $name {
            $crate::AppName::Idle => $function::<$crate::Idle $(, $type)*>($($argument),*),
            $crate::AppName::Token => $function::<$crate::Token $(, $type)*>($($argument),*),
            $crate::AppName::Mutex => $function::<$crate::EdgeReversal $(, $type)*>($($argument),*),
            $crate::AppName::Routes => $function::<$crate::Routes $(, $type)*>($($argument),*),
        }
    };
}
