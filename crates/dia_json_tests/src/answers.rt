//! Answers for one message, under the base dictionary.

use dia_check::{Levels, Unknown};
use dia_dict::base_text;
use dia_io::{Exit, Input, Inputs};
use dia_json::{check, refute};
use std::alloc::{AllocError, Global};
use std::test::Fail;

/// A valid request.
const REQUEST: &str =
    "0100002c80000118000000000000000100000002000001084000000b612e6200000001284000000962000000";

#[test]
fn checks_a_message(rt: HostRuntime) -> Result<(), Fail> {
    let inputs = inputs(rt.alloc(), REQUEST, "")?;
    let answered = check(rt.alloc(), Unknown::Kept, Levels::Any, &inputs)?;
    assert_eq!(rt; answered.exit, Exit::Yes);
    assert!(rt; answered.text.as_str() == "{\"verdict\":\"valid\",\"command\":\"DWR\"}\n");
    Ok(())
}

#[test]
fn refutes_a_message(rt: HostRuntime) -> Result<(), Fail> {
    let inputs = inputs(rt.alloc(), REQUEST, "")?;
    let answered = refute(rt.alloc(), Unknown::Kept, Levels::Any, &inputs)?;
    let wanted = "{\"refutes\":true,\"first\":{\"verdict\":\"valid\",\"command\":\"DWR\"},\
        \"second\":{\"verdict\":\"fault\",\"code\":3001,\"at\":5,\"reason\":\"command\"}}\n";
    assert_eq!(rt; answered.exit, Exit::Yes);
    assert!(rt; answered.text.as_str() == wanted);
    Ok(())
}

#[test]
fn refuses_a_dictionary(rt: HostRuntime) -> Result<(), Fail> {
    let inputs = inputs(rt.alloc(), REQUEST, "%avp X 1 Time any\n%avp X 2 Time any")?;
    let answered = refute(rt.alloc(), Unknown::Kept, Levels::Any, &inputs)?;
    let wanted =
        "{\"error\":\"dictionary 2\",\"kind\":\"duplicate-name\",\"name\":\"X\",\"slot\":null}\n";
    assert_eq!(rt; answered.exit, Exit::Bad);
    assert!(rt; answered.text.as_str() == wanted);
    Ok(())
}

/// The base dictionary, this one as the second, and this message.
fn inputs(alloc: Global, message: &str, second: &str) -> Result<Inputs, AllocError> {
    Ok(Inputs {
        first: Input::Bytes(Vec::from_slice(alloc, base_text().as_bytes())?),
        second: Input::Bytes(Vec::from_slice(alloc, second.as_bytes())?),
        table: Input::Bytes(Vec::new(alloc)),
        message: Input::Bytes(Vec::from_slice(alloc, message.as_bytes())?),
    })
}
